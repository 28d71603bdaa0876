// Stage 5, marks: forward arcs; then descendants, and the start of the second ranking.
#![tactic(auto)]

ghost use Rattle.std.specs.Prelude.{◌≡◌, cond, not, ◌&&◌, ◌≤◌, eqb, ltb};
ghost use Rattle.spec_rules.specs.Order.{forward_round, nd_round, second_sums, second_jumps};
ghost use Rattle.spec_machine.specs.StageRun.{stage_run};
ghost use Rattle.stage05_marks.specs.Rounds.{on, one};

use spec_state::Clock;
use table::ABSENT;
use table_values::counts;

// The tables of the stage, the clock, and the rounds made.
#[derive(Clone, Copy)]
pub struct Ran {
    pub forward: [u16; 512],
    pub nd: [u16; 256],
    pub jump: [u16; 512],
    pub sum: [u16; 512],
    pub clock: Clock,
    pub made: u16,
}

// Runs up to `budget` rounds of this stage.
pub fn run(
    units: u16,
    budget: u16,
    color: &[u16; 256],
    parent: &[u16; 256],
    pred: &[u16; 512],
    clock: Clock,
    forward: [u16; 512],
    nd: [u16; 256],
    jump: [u16; 512],
    sum: [u16; 512],
) -> Ran
    ensures { result ≡ stage_run (on units)
        (one units color.now parent.now pred.now) budget
        (record { forward = forward; nd = nd; jump = jump; sum = sum; clock = clock; made = 0 }) }
{
    let mut marks = forward;
    let mut below = nd;
    let mut before = jump;
    let mut total = sum;
    let mut c = clock;
    let mut made: u16 = 0;
    while stage_clock::goes_on(true, units, 5, made, budget, c) {
        let after = stage_clock::ticked(units, 5, c.made == 1, 0, c);
        if c.made == 0 {
            mark(units, parent, &total, &mut marks);
            c = after;
            made += 1;
            continue;
        }
        descend(units, color, parent, &total, &mut below);
        second(units, parent, pred, &marks, &mut before, &mut total);
        c = after;
        made += 1;
    }
    Ran {
        forward: marks,
        nd: below,
        jump: before,
        sum: total,
        clock: c,
        made,
    }
}

// 1 where a tree link's rank is below its reverse's.
fn forward_mark(arc: bool, own: u16, other: u16) -> u16
    ensures { result ≡ cond (arc && ltb own other) 1 0 }
{
    base_choice::choose(arc & (own < other), 1, 0)
}

// Round one: the forward marks.
fn mark(units: u16, parent: &[u16; 256], rank: &[u16; 512], forward: &mut [u16; 512])
    requires { units ≤ 256 }
    ensures { forward.new
        ≡ forward_round units parent.now rank.now forward.old }
{
    for v in 0..units as usize {
        let into = 2 * v;
        let out = into + 1;
        let arc = parent[v] != ABSENT;
        let down = rank[into];
        let up = rank[out];
        forward[into] = forward_mark(arc, down, up);
        forward[out] = forward_mark(arc, up, down);
    }
}

// Round two: the descendants; of a root its component's units.
fn descend(
    units: u16,
    color: &[u16; 256],
    parent: &[u16; 256],
    rank: &[u16; 512],
    nd: &mut [u16; 256],
)
    requires { units ≤ 256 }
    ensures { nd.new ≡ nd_round units color.now parent.now rank.now
        nd.old }
{
    let bucket = counts::equal_table(units, color);
    let absent = counts::count_at(false, units, color, ABSENT);
    for v in 0..units as usize {
        let into = 2 * v;
        let size = counts::count_by(false, units, color, &bucket, absent, color[v]);
        let span = table_values::half_span(rank[into], rank[into + 1]);
        nd[v] = base_choice::choose(parent[v] == ABSENT, size, span);
    }
}

// 1 where a tree link counts in the second ranking.
fn second_sum(arc: bool, mark: u16) -> u16
    ensures { result ≡ cond (arc && not (eqb mark 0)) 1 0 }
{
    base_choice::choose(arc & (mark != 0), 1, 0)
}

// Round two: the second ranking begins with the forward links and the tour's predecessors.
fn second(
    units: u16,
    parent: &[u16; 256],
    pred: &[u16; 512],
    forward: &[u16; 512],
    jump: &mut [u16; 512],
    sum: &mut [u16; 512],
)
    requires { units ≤ 256 }
    ensures jumps { jump.new ≡ second_jumps units pred.now jump.old }
    ensures sums { sum.new
        ≡ second_sums units parent.now forward.now sum.old }
{
    for v in 0..units as usize {
        let into = 2 * v;
        let out = into + 1;
        let arc = parent[v] != ABSENT;
        jump[into] = pred[into];
        jump[out] = pred[out];
        sum[into] = second_sum(arc, forward[into]);
        sum[out] = second_sum(arc, forward[out]);
    }
}
