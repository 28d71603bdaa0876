// Stage 2, tree: breadth first, or taken over from the planner (document 02, T-05).
#![tactic(auto)]

ghost use Rattle.std.specs.Prelude.{◌≡◌, true, ◌+◌, ◌<◌, ◌≤◌, IfSome};
ghost use Rattle.spec_rules.specs.Fits.{links_fit, EndsWithin};
ghost use Rattle.spec_machine.specs.InStage.{in_stage};
ghost use Rattle.spec_machine.specs.StageRun.{stage_run};
ghost use Rattle.stage02_tree.specs.Rounds.{on, parents_after, dists_after, ends_after, one};

use spec_state::Clock;
use stage02_leap::Leap;
use stage02_round::After;
use stage02_round::planned::Planned;
use table::ABSENT;
use table_values::bounds;

// So many rounds are made one by one before a leap: the first sets out from the roots.
const LEAP_AFTER: u16 = 1;

// The tables of the stage, the clock, and the rounds made.
#[derive(Clone, Copy)]
pub struct Ran {
    pub parent: [u16; 256],
    pub dist: [u16; 256],
    pub clock: Clock,
    pub made: u16,
}

// Runs up to `budget` rounds of this stage.
pub fn run(
    units: u16,
    links: u16,
    budget: u16,
    given: u16,
    plan: &[u16; 256],
    ends: &[u16; 2048],
    levels: &[i16; 1024],
    color: &[u16; 256],
    clock: Clock,
    parent: [u16; 256],
    dist: [u16; 256],
) -> Ran
    ensures { result ≡ stage_run (on units links ends.now)
        (one units links given plan.now ends.now levels.now color.now)
        budget
        (record { parent = parent; dist = dist; clock = clock; made = 0 }) }
{
    let fits = bounds::links_fit(units, links, ends);
    let wait = LEAP_AFTER.saturating_sub(clock.made);
    let leap_at = base_choice::choose(units <= budget.saturating_sub(wait), wait, ABSENT);
    let mut above = parent;
    let mut far = dist;
    let mut c = clock;
    let mut made: u16 = 0;
    while stage_clock::goes_on(fits, units, 2, made, budget, c) {
        if made == leap_at {
            let rest = remaining(
                units,
                links,
                budget - made,
                given,
                plan,
                ends,
                levels,
                color,
                c,
                above,
                far,
                made,
            );
            if let Some(run) = rest {
                return run;
            }
        }
        let new = round(
            units, links, c.made, given, plan, ends, levels, color, above, far,
        );
        let after = stage_clock::ticked(units, 2, new.ends, 0, c);
        let After { parent, dist, .. } = new;
        above = parent;
        far = dist;
        c = after;
        made += 1;
    }
    Ran {
        parent: above,
        dist: far,
        clock: c,
        made,
    }
}

// The rest of the rounds at once, where no tree is given, the distances found ahead are right and the budget covers
// them.
fn remaining(
    units: u16,
    links: u16,
    left: u16,
    given: u16,
    plan: &[u16; 256],
    ends: &[u16; 2048],
    levels: &[i16; 1024],
    color: &[u16; 256],
    clock: Clock,
    parent: [u16; 256],
    dist: [u16; 256],
    made: u16,
) -> Option<Ran>
    requires { (links_fit units links ends.now ≡ true) × (in_stage units 2 clock ≡ true) × (made + left < 65536) }
    ensures { IfSome result (λ (run : Ran). run
        ≡ stage_run (on units links ends.now)
        (one units links given plan.now ends.now levels.now color.now) left
        (record { parent = parent; dist = dist; clock = clock; made = made })) }
{
    if 0 < given {
        return None;
    }
    let found = stage02_leap::leap(units, links, clock.made, ends, levels, parent, dist)?;
    let Leap { parent, dist, last } = found;
    let more = last.saturating_sub(clock.made);
    if left <= more {
        return None;
    }
    let rounds = more + 1;
    let clock = Clock {
        stage: 3,
        made: 0,
        rounds: clock.rounds.saturating_add(rounds).min(Clock::MAX_ROUNDS),
        requests: clock.requests,
    };
    Some(Ran {
        parent,
        dist,
        clock,
        made: made + rounds,
    })
}

// A round: the planner's where a tree is given.
fn round(
    units: u16,
    links: u16,
    made: u16,
    given: u16,
    plan: &[u16; 256],
    ends: &[u16; 2048],
    levels: &[i16; 1024],
    color: &[u16; 256],
    parent: [u16; 256],
    dist: [u16; 256],
) -> After
    requires { (units ≤ 256) × (links ≤ 1024) × EndsWithin units links ends.now }
    ensures parents { result.parent ≡ parents_after units links made given plan.now ends.now
        levels.now color.now dist parent }
    ensures dists { result.dist ≡ dists_after units links made given plan.now ends.now
        levels.now color.now dist }
    ensures ends { result.ends ≡ ends_after units links made given ends.now levels.now
        color.now dist }
{
    if given != 0 {
        let new = stage02_round::planned::take_over(units, plan, color, parent, dist);
        let Planned { parent, dist } = new;
        return After {
            parent,
            dist,
            ends: true,
        };
    }
    stage02_round::round(units, links, made, ends, levels, color, parent, dist)
}
