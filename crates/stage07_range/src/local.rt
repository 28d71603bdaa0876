// The first round of stage 7: local values by one pass over the links, the unit at each place by buckets, then passes
// over places and units.
ghost use Rattle.std.specs.Prelude.{◌≡◌, ℕ, true, false, ◌&&◌, cond, ◌+◌, ◌-◌, ◌<◌, ◌≤◌, min, max, leb};
ghost use Rattle.std.specs.Prelude.{get_or, slice_index};
ghost use Rattle.base_lists.specs.Tables.{over};
ghost use Rattle.table.specs.Table.{max_units};
ghost use Rattle.spec_rules.specs.Basics.{off_tree};
ghost use Rattle.spec_rules.specs.Fits.{EndsWithin};
ghost use Rattle.spec_rules.specs.HeardLaws.{hears};
ghost use Rattle.spec_rules.specs.Range.{global_first, range_first, little_first, big_first};
ghost use Rattle.spec_rules.specs.RangeLaws.{local_table, local_by, begin_by};

use table::ABSENT;
use table_values::{firsts, tables};

// The local value of each unit, for low and for high.
#[derive(Drop)]
struct Local {
    low: [u16; 256],
    high: [u16; 256],
}

// A link of `a` and `b`: each takes in the other's place.
fn hear(greatest: bool, pre: &[u16; 256], a: u16, b: u16, t: &mut [u16; 256])
    requires { (a < 256) × (b < 256) }
    ensures { t.new ≡ hears greatest max_units pre.now a b t.old }
{
    let at_a = a as usize;
    let at_b = b as usize;
    t[at_a] = table_values::op_of(greatest, t[at_a], pre[at_b]);
    t[at_b] = table_values::op_of(greatest, t[at_b], pre[at_a]);
}

// The same for low and for high, if the link is off the tree.
fn hear_off(
    parent: &[u16; 256],
    pre: &[u16; 256],
    a: u16,
    b: u16,
    low: &mut [u16; 256],
    high: &mut [u16; 256],
)
    requires { (a < 256) × (b < 256) }
    ensures low { low.new
        ≡ cond (off_tree parent.now a b) (hears false max_units pre.now a b low.old)
        low.old }
    ensures high { high.new
        ≡ cond (off_tree parent.now a b) (hears true max_units pre.now a b high.old)
        high.old }
{
    let at_a = a as usize;
    let at_b = b as usize;
    let off = (parent[at_a] != b) & (parent[at_b] != a);
    if !off {
        return;
    }
    hear(false, pre, a, b, low);
    hear(true, pre, a, b, high);
}

// The local values, from the places.
fn locals(n: u16, links: u16, ends: &[u16], parent: &[u16; 256], pre: &[u16; 256]) -> Local
    requires { (n ≤ 256) × EndsWithin n links ends.now }
    ensures low { result.low ≡ local_table false links ends.now parent.now
        pre.now }
    ensures high { result.high ≡ local_table true links ends.now parent.now
        pre.now }
{
    let mut low = *pre;
    let mut high = *pre;
    for j in 0..links {
        let at = 2 * (j as usize);
        hear_off(parent, pre, ends[at], ends[at + 1], &mut low, &mut high);
    }
    Local { low, high }
}

// Entries begin with the local values of a unit each; 0 where there is none.
fn begin_from<F: Fn(usize) -> u16>(
    n: u16,
    unit: F,
    lows: &[u16; 256],
    highs: &[u16; 256],
    low: &mut [u16; 256],
    high: &mut [u16; 256],
)
    requires few { n ≤ 256 }
    requires callable { (v : ℕ) → v < n → F.pre unit v }
    ensures low { (f : ℕ → ℕ) → ((v u : ℕ) → v < n → F.post unit v u → slice_index lows.now u ≡ f v)
        → low.new ≡ over n f low.old }
    ensures high { (f : ℕ → ℕ) → ((v u : ℕ) → v < n → F.post unit v u → slice_index highs.now u ≡ f v)
        → high.new ≡ over n f high.old }
{
    for v in 0..n as usize {
        let u = unit(v);
        low[v] = tables::at(lows, u);
        high[v] = tables::at(highs, u);
    }
}

// One past the place of the last of so many units.
fn end_place(own: u16, count: u16) -> u32
    ensures { result ≡ own + count }
{
    u32::from(own) + u32::from(count)
}

// The unit at the place before `end`, absent where that is none of `n` places.
fn unit_before(n: u16, first: &[u16; 512], end: u32) -> u16
    requires { n ≤ 256 }
    ensures { result ≡ cond (leb 1 end && leb end n) (get_or first.now (end - 1) 0) 65535 }
{
    if end == 0 || (n as u32) < end {
        ABSENT
    } else {
        first[(end - 1) as usize]
    }
}

// One less, as a table holds it.
fn last_place(end: u32) -> u16
    ensures { result ≡ min (end - 1) 2048 }
{
    table_values::bounded(end.saturating_sub(1))
}

// Little begins at a unit's place, big at that of its last descendant.
fn ends_begin(
    n: u16,
    nd: &[u16; 256],
    pre: &[u16; 256],
    little: &mut [u16; 256],
    big: &mut [u16; 256],
)
    requires { n ≤ 256 }
    ensures little { little.new ≡ little_first n pre.now little.old }
    ensures big { big.new ≡ big_first n nd.now pre.now big.old }
{
    for v in 0..n as usize {
        little[v] = pre[v];
        big[v] = last_place(end_place(pre[v], nd[v]));
    }
}

// All tables after the first round.
pub(crate) fn begin(
    n: u16,
    links: u16,
    ends: &[u16; 2048],
    parent: &[u16; 256],
    nd: &[u16; 256],
    pre: &[u16; 256],
    low: &mut [u16; 256],
    high: &mut [u16; 256],
    little: &mut [u16; 256],
    big: &mut [u16; 256],
    least: &mut [u16; 256],
    greatest: &mut [u16; 256],
)
    requires { (n ≤ 256) × EndsWithin n links ends.now }
    ensures low { low.new
        ≡ range_first min n links ends.now parent.now nd.now pre.now
        low.old }
    ensures high { high.new
        ≡ range_first max n links ends.now parent.now nd.now pre.now
        high.old }
    ensures little { little.new ≡ little_first n pre.now little.old }
    ensures big { big.new ≡ big_first n nd.now pre.now big.old }
    ensures least { least.new
        ≡ global_first min n links ends.now parent.now pre.now
        least.old }
    ensures greatest { greatest.new
        ≡ global_first max n links ends.now parent.now pre.now
        greatest.old }
{
    let first = firsts::firsts(n, pre);
    let local = locals(n, links, ends, parent, pre);
    // Segments begin with the values of their places, units with those of their last descendants' places.
    begin_from(n, |q| first[q], &local.low, &local.high, least, greatest);
    begin_from(
        n,
        |v| unit_before(n, &first, end_place(pre[v], nd[v])),
        &local.low,
        &local.high,
        low,
        high,
    );
    ends_begin(n, nd, pre, little, big);
}
