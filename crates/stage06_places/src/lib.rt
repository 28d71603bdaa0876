// Stage 6, places: the second ranking; with its last round the place of each unit.
#![tactic(auto)]

ghost use Rattle.std.specs.Prelude.{◌≡◌, cond, ◌≤◌};
ghost use Rattle.spec_rules.specs.Order.{pre_round};
ghost use Rattle.spec_machine.specs.StageRun.{stage_run};
ghost use Rattle.stage06_places.specs.Rounds.{on, one};

use leap_ranking::Landed;
use spec_state::Clock;
use table::ABSENT;
use table_values::counts;

// The tables of the stage, the clock, and the rounds made.
#[derive(Clone, Copy)]
pub struct Ran {
    pub pre: [u16; 256],
    pub jump: [u16; 512],
    pub sum: [u16; 512],
    pub clock: Clock,
    pub made: u16,
}

// Runs up to `budget` rounds of this stage: at once, where that is found right.
pub fn run(
    units: u16,
    budget: u16,
    color: &[u16; 256],
    parent: &[u16; 256],
    clock: Clock,
    pre: [u16; 256],
    jump: [u16; 512],
    sum: [u16; 512],
) -> Ran
    ensures { result ≡ stage_run (on units) (one units color.now parent.now) budget
        (record { pre = pre; jump = jump; sum = sum; clock = clock; made = 0 }) }
{
    let goes_on = stage_clock::goes_on(true, units, 6, 0, budget, clock);
    if leap_ranking::tried(units, budget) & goes_on {
        if let Some(rest) = leap_ranking::leap(units, budget, clock, jump, sum) {
            let Landed {
                jump,
                sum,
                clock,
                made,
            } = rest;
            let mut place = pre;
            number(units, color, parent, &sum, &mut place);
            return Ran {
                pre: place,
                jump,
                sum,
                clock,
                made,
            };
        }
    }
    rounds(units, budget, color, parent, clock, pre, jump, sum)
}

// Runs up to `budget` rounds of this stage, one after the other.
fn rounds(
    units: u16,
    budget: u16,
    color: &[u16; 256],
    parent: &[u16; 256],
    clock: Clock,
    pre: [u16; 256],
    jump: [u16; 512],
    sum: [u16; 512],
) -> Ran
    ensures { result ≡ stage_run (on units) (one units color.now parent.now) budget
        (record { pre = pre; jump = jump; sum = sum; clock = clock; made = 0 }) }
{
    let arcs = 2 * (units as usize);
    let mut place = pre;
    let mut before = jump;
    let mut total = sum;
    let mut c = clock;
    let mut made: u16 = 0;
    while stage_clock::goes_on(true, units, 6, made, budget, c) {
        let asked = stage04_ranking::requests(arcs, &before);
        let last = stage_clock::is_last(units, asked == 0, c);
        let after = stage_clock::ticked(units, 6, asked == 0, asked, c);
        number_if(last, units, color, parent, &total, &mut place);
        stage04_ranking::double(arcs, &mut before, &mut total);
        c = after;
        made += 1;
    }
    Ran {
        pre: place,
        jump: before,
        sum: total,
        clock: c,
        made,
    }
}

// The places, with the last round.
fn number_if(
    last: bool,
    units: u16,
    color: &[u16; 256],
    parent: &[u16; 256],
    sum: &[u16; 512],
    pre: &mut [u16; 256],
)
    requires { units ≤ 256 }
    ensures { pre.new
        ≡ cond last (pre_round units color.now parent.now sum.now pre.old)
        pre.old }
{
    if last {
        number(units, color, parent, sum, pre);
    }
}

// The place of each unit: its sum, or 0 at a root, after the units of smaller colors.
fn number(
    units: u16,
    color: &[u16; 256],
    parent: &[u16; 256],
    sum: &[u16; 512],
    pre: &mut [u16; 256],
)
    requires { units ≤ 256 }
    ensures { pre.new ≡ pre_round units color.now parent.now sum.now
        pre.old }
{
    let bucket = counts::below_table(units, color);
    let absent = counts::count_at(true, units, color, ABSENT);
    for v in 0..units as usize {
        let before = counts::count_by(true, units, color, &bucket, absent, color[v]);
        let own = base_choice::choose(parent[v] == ABSENT, 0, sum[2 * v]);
        pre[v] = table_values::bounded_sum(own, before);
    }
}
