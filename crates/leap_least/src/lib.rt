// Leaps: many rounds of the least value at once, of stage 1 over links and of stage 9 over joins.
#![tactic(auto)]

ghost use Rattle.std.specs.Prelude.{◌≡◌, true, ◌+◌, ◌≤◌, IfSome};
ghost use Rattle.leap_least.specs.Leapt.{Leapt, rounds_in, passed};

use spec_state::Clock;

// What a run of a stage leaves that ends within its budget.
#[derive(Clone, Copy)]
pub struct Landed {
    pub value: [u16; 256],
    pub clock: Clock,
    pub made: u16,
}

// The rest of a stage whose ceiling is `most`, from what its units say, over pairs of them. None where that is not
// found right, or is not within budget and ceiling.
pub fn leap(
    units: u16,
    pairs: u16,
    ends: &[u16],
    most: u16,
    budget: u16,
    value: [u16; 256],
    clock: Clock,
    made: u16,
) -> Option<Landed>
    ensures leapt { IfSome result (λ rest.
        Leapt units pairs ends.now most budget value clock made rest.value rest.clock rest.made) }
{
    let mut new = value;
    let changing = leap_search::found(units, pairs, ends, &mut new)?;
    let rounds = rounds_in(clock.made, changing);
    if !covers(rounds, budget, most, clock, made) {
        return None;
    }
    Some(Landed {
        value: new,
        clock: passed(rounds, clock),
        made: made + rounds as u16,
    })
}

// So many rounds are within the budget and the ceiling, from one of the ten stages.
fn covers(rounds: u32, budget: u16, most: u16, clock: Clock, made: u16) -> bool
    requires { rounds ≤ 65536 }
    ensures { result ≡ true → (clock.stage ≤ 10) × (made + rounds ≤ budget) × (clock.made + rounds ≤ most) }
{
    clock.stage <= 10
        && made as u32 + rounds <= budget as u32
        && clock.made as u32 + rounds <= most as u32
}

// The rounds of the stage still to come: those that change something and the one that does not, which is not the first
// of a stage.
fn rounds_in(made: u16, rounds: u16) -> u32
    ensures are { result ≡ rounds_in made rounds }
    ensures few { result ≤ 65536 }
{
    if made == 0 {
        rounds.max(1) as u32 + 1
    } else {
        rounds as u32 + 1
    }
}

// The clock after the rounds of a leap, the last of which ends the stage.
fn passed(rounds: u32, clock: Clock) -> Clock
    requires { (clock.stage ≤ 10) × (rounds ≤ 65536) }
    ensures { result ≡ passed rounds clock }
{
    let all = clock.rounds as u32 + rounds;
    Clock {
        stage: clock.stage + 1,
        made: 0,
        rounds: all.min(Clock::MAX_ROUNDS as u32) as u16,
        requests: clock.requests.min(Clock::MAX_REQUESTS),
    }
}
