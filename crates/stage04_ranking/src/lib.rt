// Stage 4, ranking: the rank of each arc in its tour, by doubling. Stage 6 ranks by the same rounds.
#![tactic(auto)]

ghost use Rattle.std.specs.Prelude.{◌≡◌, min};
ghost use Rattle.spec_rules.specs.Ranking.{sum_round, jump_round, requests_of};
ghost use Rattle.spec_machine.specs.StageRun.{stage_run};
ghost use Rattle.stage04_ranking.specs.Rounds.{on, one};

use leap_ranking::Landed;
use spec_state::Clock;
use table::ABSENT;

// The tables of the stage, the clock, and the rounds made.
#[derive(Clone, Copy)]
pub struct Ran {
    pub jump: [u16; 512],
    pub sum: [u16; 512],
    pub clock: Clock,
    pub made: u16,
}

// Runs up to `budget` rounds of this stage: at once, where that is found right.
pub fn run(units: u16, budget: u16, clock: Clock, jump: [u16; 512], sum: [u16; 512]) -> Ran
    ensures { result ≡ stage_run (on units) (one units) budget
        (record { jump = jump; sum = sum; clock = clock; made = 0 }) }
{
    let goes_on = stage_clock::goes_on(true, units, 4, 0, budget, clock);
    if leap_ranking::tried(units, budget) & goes_on {
        if let Some(rest) = leap_ranking::leap(units, budget, clock, jump, sum) {
            let Landed {
                jump,
                sum,
                clock,
                made,
            } = rest;
            return Ran {
                jump,
                sum,
                clock,
                made,
            };
        }
    }
    rounds(units, budget, clock, jump, sum)
}

// Runs up to `budget` rounds of this stage, one after the other.
fn rounds(units: u16, budget: u16, clock: Clock, jump: [u16; 512], sum: [u16; 512]) -> Ran
    ensures { result ≡ stage_run (on units) (one units) budget
        (record { jump = jump; sum = sum; clock = clock; made = 0 }) }
{
    let arcs = 2 * (units as usize);
    let mut before = jump;
    let mut total = sum;
    let mut c = clock;
    let mut made: u16 = 0;
    while stage_clock::goes_on(true, units, 4, made, budget, c) {
        let asked = requests(arcs, &before);
        let after = stage_clock::ticked(units, 4, asked == 0, asked, c);
        double(arcs, &mut before, &mut total);
        c = after;
        made += 1;
    }
    Ran {
        jump: before,
        sum: total,
        clock: c,
        made,
    }
}

// A round in place, from copies of the tables. An object without a predecessor keeps its entries: nothing is stored
// there.
pub fn double(objects: usize, jump: &mut [u16; 512], sum: &mut [u16; 512])
    ensures jumps { jump.new ≡ jump_round objects jump.old }
    ensures sums { sum.new ≡ sum_round objects jump.old sum.old }
{
    let old_jump = *jump;
    let old_sum = *sum;
    for a in 0..objects.min(512) {
        let before = old_jump[a];
        if before < 512 {
            let at = before as usize;
            sum[a] = table_values::bounded_sum(old_sum[a], old_sum[at]);
            jump[a] = old_jump[at];
        } else if before != ABSENT {
            sum[a] = table_values::bounded_sum(old_sum[a], 0);
            jump[a] = 0;
        }
    }
}

// The requests of a round, of the objects that have entries. Counted in a word: such a pass is taken several words at a
// time.
pub fn requests(objects: usize, jump: &[u16; 512]) -> u16
    ensures { result ≡ requests_of (min objects 512) jump.now }
{
    let mut made = 0;
    for a in 0..objects.min(512) {
        made += u16::from(jump[a] != ABSENT);
    }
    made
}
