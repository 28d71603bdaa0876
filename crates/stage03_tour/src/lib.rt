// Stage 3, tour: the Euler tour of each tree. Its first round finds the followers of arcs, its second their
// predecessors, with the start of the first ranking.
#![tactic(auto)]

mod followers;
mod predecessors;

ghost use Rattle.std.specs.Prelude.{◌≡◌};
ghost use Rattle.spec_machine.specs.StageRun.{stage_run};
ghost use Rattle.stage03_tour.specs.Rounds.{on, one};

use spec_state::Clock;
use table_values::bounds;

// The tables of the stage and of the first ranking, the clock, and the rounds made.
#[derive(Clone, Copy)]
pub struct Ran {
    pub next: [u16; 512],
    pub pred: [u16; 512],
    pub jump: [u16; 512],
    pub sum: [u16; 512],
    pub clock: Clock,
    pub made: u16,
}

// Runs up to `budget` rounds of this stage.
pub fn run(
    units: u16,
    budget: u16,
    parent: &[u16; 256],
    clock: Clock,
    next: [u16; 512],
    pred: [u16; 512],
    jump: [u16; 512],
    sum: [u16; 512],
) -> Ran
    ensures { result ≡ stage_run (on units parent.now) (one units parent.now) budget
        (record { next = next; pred = pred; jump = jump; sum = sum; clock = clock; made = 0 }) }
{
    let fits = bounds::names_ok(units as u32, parent);
    let mut to = next;
    let mut from = pred;
    let mut before = jump;
    let mut total = sum;
    let mut c = clock;
    let mut made: u16 = 0;
    while stage_clock::goes_on(fits, units, 3, made, budget, c) {
        let after = stage_clock::ticked(units, 3, c.made == 1, 0, c);
        if c.made == 0 {
            let new = followers::next_round(units, parent, to);
            to = new;
            c = after;
            made += 1;
            continue;
        }
        let new = predecessors::pred_round(units, parent, &to, from, before, total);
        let new_pred = new.pred;
        let new_jump = new.jump;
        let new_sum = new.sum;
        from = new_pred;
        before = new_jump;
        total = new_sum;
        c = after;
        made += 1;
    }
    Ran {
        next: to,
        pred: from,
        jump: before,
        sum: total,
        clock: c,
        made,
    }
}
