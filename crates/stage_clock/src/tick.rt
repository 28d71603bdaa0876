// Whether a stage makes a round more, whether that is its last, and the clock after it.
ghost use Rattle.std.specs.Prelude.{◌≡◌, cond, ◌&&◌, ltb, ◌+◌, ◌≤◌, min};
ghost use Rattle.spec_machine.specs.InStage.{in_stage, last_at};
ghost use Rattle.spec_machine.specs.Step.{next_clock};

use super::ceilings;
use spec_state::Clock;

// Whether the clock stands in the stage, with room for a round.
fn within(units: u16, stage: u16, c: Clock) -> bool
    ensures { result ≡ in_stage units stage c }
{
    let in_stage = (units <= 256) & (stage <= 10) & (c.stage == stage);
    let few = (c.rounds <= Clock::MAX_ROUNDS) & (c.requests <= Clock::MAX_REQUESTS);
    in_stage & (c.made <= 256) & few
}

// Whether a run that has made `made` rounds makes one more in this stage, on tables that fit.
pub fn goes_on(fits: bool, units: u16, stage: u16, made: u16, budget: u16, c: Clock) -> bool
    ensures { result ≡ (ltb made budget && (fits && in_stage units stage c)) }
{
    made < budget && fits && within(units, stage, c)
}

// Whether this round is its stage's last: by the stage's rule or at its ceiling. At most 256 units count.
pub fn is_last(units: u16, ends: bool, c: Clock) -> bool
    ensures { result ≡ last_at (min units 256) ends c }
{
    let most = ceilings::stage_ceiling(units, c.stage);
    ends | (u32::from(most) <= u32::from(c.made) + 1)
}

// The clock of a stage after a round that ends it by its rule or does not, with so many requests; as it was where it
// stands in another stage.
pub fn ticked(units: u16, stage: u16, ends: bool, requests: u16, c: Clock) -> Clock
    ensures { result ≡ cond (in_stage units stage c) (next_clock (last_at units ends c) requests c) c }
{
    if within(units, stage, c) {
        next(is_last(units, ends, c), requests, c)
    } else {
        c
    }
}

// The clock after a round.
fn next(last: bool, requests: u16, c: Clock) -> Clock
    requires { (c.stage ≤ 10) × ((c.made ≤ 256) × (c.rounds ≤ 804)) }
    ensures { result ≡ next_clock last requests c }
{
    Clock {
        stage: base_choice::choose(last, c.stage + 1, c.stage),
        made: base_choice::choose(last, 0, c.made + 1),
        rounds: (c.rounds + 1).min(Clock::MAX_ROUNDS),
        requests: c.requests.saturating_add(requests).min(Clock::MAX_REQUESTS),
    }
}
