// The order as it grows from unit 0: again and again the least unit that may stand.
ghost use Rattle.std.specs.Prelude.{◌≡◌, ◌≢◌, cond, ℕ, ◌*◌, ◌<◌, eqb, length, get_or, MatchOption};
ghost use Rattle.base_lists.specs.Folds.{count};
ghost use Rattle.table.specs.Table.{link_count, end_a};
ghost use Rattle.lifting_order.specs.Chains.{Words};
ghost use Rattle.lifting_order.specs.Order.{next_up};
ghost use Rattle.lifting_order.specs.Standing.{ready, Given, Found};

use super::chains;

// Who is within reach while nothing stands: unit 0.
fn reached() -> [u16; 256]
    ensures { (w : ℕ) → w < 256 → get_or result w 0 ≡ cond (eqb w 0) 1 0 }
{
    let mut near = chains::zeros();
    near[0] = 1;
    near
}

// How many pairs each unit is the first of.
fn waiting(p: &[u16]) -> [u16; 256]
    requires { Words p.now × (length p.now ≡ 2 * link_count p.now) }
    ensures { (w : ℕ) → w < 256 →
        get_or result w 0 ≡ count (link_count p.now) (λ (k : ℕ). eqb (end_a p.now k) w) }
{
    let mut wait = chains::zeros();
    for k in 0..p.len() / 2 {
        let w = base_slices::word(p, 2 * k) as usize;
        let more = table_values::bounded_sum(base_slices::word(&wait, w), 1);
        base_slices::put(&mut wait, w, more);
    }
    wait
}

// The least unit within reach that waits for nothing.
fn next_up(units: u16, near: &[u16], wait: &[u16]) -> Option<u16>
    ensures { MatchOption result (units ≡ next_up units (ready near.now wait.now))
        (λ v. (v ≢ units) × (v ≡ next_up units (ready near.now wait.now))) }
{
    let mut least = units;
    for v in 0..units {
        let i = v as usize;
        let may = (base_slices::word(near, i) != 0) & (base_slices::word(wait, i) == 0);
        least = least.min(base_choice::choose(may, v, units));
    }
    if least == units { None } else { Some(least) }
}

// The number of units left over when all stand, or when none may stand next. The others lie in `order` after that many
// places, the last to stand first. A unit that stands is made to wait for ever, so that it is not taken twice.
pub(crate) fn grown(units: u16, ends: &[u16], pairs: &[u16], order: &mut [u16]) -> u16
    requires { Given units ends.now pairs.now × (length order.old ≡ 256) }
    ensures { Found units ends.now pairs.now order.new result }
{
    let by_end = chains::chained(ends);
    let by_pair = chains::chained(pairs);
    let mut near = reached();
    let mut wait = waiting(pairs);
    for left in (0..units).rev() {
        let Some(v) = next_up(units, &near, &wait) else {
            return left + 1;
        };
        base_slices::put(order, left as usize, v);
        chains::walk(true, ends, &by_end.last, &by_end.next, v, &mut near);
        chains::walk(false, pairs, &by_pair.last, &by_pair.next, v, &mut wait);
        base_slices::put(&mut wait, v as usize, 1);
    }
    0
}
