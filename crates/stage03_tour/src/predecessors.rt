// Round two of stage 3: the predecessor of each arc, and the start of the first ranking. A turn gives both arcs of a
// unit.
ghost use Rattle.std.specs.Prelude.{◌≡◌, ℕ, ◌+◌, ◌*◌, ◌≤◌, ◌<◌, length, get_or};
ghost use Rattle.spec_rules.specs.Buckets.{BUCKETS};
ghost use Rattle.spec_rules.specs.FirstLaws.{first_at};
ghost use Rattle.spec_rules.specs.Tour.{pred_round, first_jumps, first_sums};
ghost use Rattle.spec_rules.specs.TourLaws.{pred_out};
ghost use Rattle.stage03_tour.specs.Neighbors.{Parents};
ghost use Rattle.stage03_tour.specs.Predecessors.{into_by};

use table::ABSENT;
use table_values::tables;

// The predecessors, and what begins the first ranking: the same as working predecessors, and 1 for each arc that
// stands.
#[derive(Drop)]
pub(crate) struct Begun {
    pub pred: [u16; 512],
    pub jump: [u16; 512],
    pub sum: [u16; 512],
}

// All three after the round.
pub(crate) fn pred_round(
    units: u16,
    parent: &[u16],
    next: &[u16; 512],
    pred: [u16; 512],
    jump: [u16; 512],
    sum: [u16; 512],
) -> Begun
    requires { Parents units parent.now }
    ensures preds { result.pred ≡ pred_round units parent.now next.now pred }
    ensures jumps { result.jump ≡ first_jumps units parent.now next.now jump }
    ensures sums { result.sum ≡ first_sums units parent.now sum }
{
    let child = fill(units, parent);
    let first = fill(2 * units, next);
    let mut new_pred = pred;
    let mut new_jump = jump;
    let mut new_sum = sum;
    for v in 0..units {
        let at = 2 * (v as usize);
        let x = pred_in(parent, &child, &first, v);
        let y = pred_out(parent, &first, v);
        let z = base_choice::choose(parent[v as usize] != ABSENT, 1, 0);
        new_pred[at] = x;
        new_pred[at + 1] = y;
        new_jump[at] = x;
        new_jump[at + 1] = y;
        new_sum[at] = z;
        new_sum[at + 1] = z;
    }
    Begun {
        pred: new_pred,
        jump: new_jump,
        sum: new_sum,
    }
}

// The first of `count` items with each key, by a scan from the last down: what is stored last stands, and nothing is
// compared.
fn fill(count: u16, key: &[u16]) -> [u16; 512]
    requires { count ≤ length key.now }
    ensures { (q : ℕ) → q < BUCKETS → get_or result q 0 ≡ first_at count key.now q }
{
    let mut first = tables::blank_arcs();
    for k in (0..count).rev() {
        tables::store(&mut first, key[k as usize], k);
    }
    first
}

// Of the arc into `v`: the arc that it follows, none where it starts its list, as a root's first child.
fn pred_in(parent: &[u16], child: &[u16], first: &[u16], v: u16) -> u16
    requires { (v < length parent.now) × (2 * v < length first.now) }
    ensures { result ≡ into_by parent.now child.now first.now v }
{
    let at = v as usize;
    let p = parent[at];
    let starts = (tables::at(parent, p) == ABSENT) & (tables::at(child, p) == v);
    base_choice::choose((p != ABSENT) & !starts, first[2 * at], ABSENT)
}

// Of the arc out of `v`.
fn pred_out(parent: &[u16], first: &[u16], v: u16) -> u16
    requires { (v < length parent.now) × (2 * v + 1 < length first.now) }
    ensures { result ≡ pred_out parent.now first.now v }
{
    let at = v as usize;
    base_choice::choose(parent[at] != ABSENT, first[2 * at + 1], ABSENT)
}
