// The lifting order (T-07) over plain tables: nothing is written before it is known whole.
#![tactic(auto)]

ghost use Rattle.std.specs.Prelude.{◌≡◌, ℕ, length, get_or};
ghost use Rattle.base_lists.specs.Tables.{over};
ghost use Rattle.lifting_order.specs.Order.{bad_pairs};
ghost use Rattle.lifting_order.specs.Written.{site_fits, given_refusal, order_refusal, order_written};

mod chains;
mod growth;

// Whether an order can be made from the table: what every kept state guarantees.
fn site_fits(units: u16, links: u16, ends: &[u16]) -> bool
    ensures { result ≡ site_fits units links ends.now }
{
    units <= 256
        && 2 * (links as usize) <= ends.len()
        && table_values::bounds::links_fit(units, links, ends)
}

// More than 256 pairs, an odd number of words, or a pair that names a missing unit.
fn bad_pairs(units: u16, pairs: &[u16]) -> bool
    ensures { result ≡ bad_pairs units pairs.now }
{
    let count = pairs.len() / 2;
    let many = 256 < count;
    let odd = pairs.len() % 2 == 1;
    many || odd || !table_values::bounds::links_fit(units, count as u16, pairs)
}

// The number of the first cause among 10, 14, 19.
fn given_refusal<'a>(units: u16, links: u16, ends: &'a [u16], pairs: &'a [u16], places: usize) -> u8
    ensures { result ≡ given_refusal units links ends.now pairs.now places }
{
    if !site_fits(units, links, ends) {
        return table_refusals::NOT_KEPT;
    }
    if places < units as usize {
        return table_refusals::TOO_SHORT;
    }
    if bad_pairs(units, pairs) {
        return table_refusals::BAD_PAIRS;
    }
    0
}

// The order at the front of `out`: 10 where the table is no site's, 14, 19, 20. On a refusal no word changes; words
// past the order stay.
pub fn write<'a>(units: u16, links: u16, ends: &'a [u16], pairs: &'a [u16], out: &mut [u16]) -> u8
    ensures number { result ≡ order_refusal units links ends.now pairs.now
        (length out.old) }
    ensures lent { out.new
        ≡ order_written units links ends.now pairs.now out.old }
{
    let refused = given_refusal(units, links, ends, pairs, out.len());
    if refused != 0 {
        return refused;
    }
    let mut order = chains::zeros();
    let left = growth::grown(units, &ends[..2 * (links as usize)], pairs, &mut order);
    if left != 0 {
        return table_refusals::NO_ORDER;
    }
    base_copies::lay_first(units, &order, out);
    0
}
