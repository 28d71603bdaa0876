// Rankings at once: all rounds of stage 4, or of stage 6. A walk along the lists of objects gives each its rank and its
// sum; tests over every object say whether these are right. The walk is proved safe and no more.
#![tactic(auto)]

ghost use Rattle.std.specs.Prelude.{◌≡◌, ◌+◌, ◌≤◌, true, IfSome};
ghost use Rattle.spec_rules.specs.Ceilings.{ranking_ceiling};
ghost use Rattle.leap_ranking.specs.Leapt.{tried, cleared, passed, Found, Leapt};

use spec_state::Clock;
use table::ABSENT;
use table_values::bounds;

mod tests;
mod walk;

// The sums of all objects, how often they ask and in how many rounds.
#[derive(Drop)]
struct Summed {
    sum: [u16; 512],
    requests: u16,
    rounds: u16,
}

// What a run of a ranking leaves that ends within its budget.
#[derive(Clone, Copy)]
pub struct Landed {
    pub jump: [u16; 512],
    pub sum: [u16; 512],
    pub clock: Clock,
    pub made: u16,
}

// Whether a leap is tried: of a few units rounds cost no more, and no ranking takes more rounds than these.
pub fn tried(units: u16, budget: u16) -> bool
    ensures { result ≡ tried units budget }
{
    (8 <= units) & (12 <= budget)
}

// The rest of a ranking of the arcs of `units` units, if what the walk finds is right and the run ends within its
// budget.
pub fn leap(
    units: u16,
    budget: u16,
    clock: Clock,
    jump: [u16; 512],
    sum: [u16; 512],
) -> Option<Landed>
    ensures leapt { IfSome result (λ (l : Landed).
        Leapt units budget jump sum clock l.jump l.sum l.clock l.made) }
{
    if 256 < units {
        return None;
    }
    let arcs = 2 * (units as usize);
    let Summed {
        sum: total,
        requests,
        rounds,
    } = found(arcs, jump, sum)?;
    if !covers(units, rounds, budget, clock) {
        return None;
    }
    let made = rounds + 1;
    Some(Landed {
        jump: cleared(arcs, jump),
        sum: total,
        clock: passed(made, requests, clock),
        made,
    })
}

// A round more than these is within the budget and the ceiling, from one of the ten stages.
fn covers(units: u16, rounds: u16, budget: u16, clock: Clock) -> bool
    requires { (units ≤ 256) × (rounds ≤ 16) }
    ensures { result ≡ true → (clock.stage ≤ 10) × (rounds + 1 ≤ budget)
        × (clock.made + (rounds + 1) ≤ ranking_ceiling units) }
{
    let most = base_log2::lg((2 * units).saturating_sub(2)) as u32 + 1;
    clock.stage <= 10 && rounds < budget && clock.made as u32 + (rounds as u32 + 1) <= most
}

// The clock after the rounds and requests of a leap, the last round of which ends the stage.
fn passed(rounds: u16, requests: u16, clock: Clock) -> Clock
    requires { clock.stage ≤ 10 }
    ensures { result ≡ passed rounds requests clock }
{
    Clock {
        stage: clock.stage + 1,
        made: 0,
        rounds: clock.rounds.saturating_add(rounds).min(Clock::MAX_ROUNDS),
        requests: clock
            .requests
            .saturating_add(requests)
            .min(Clock::MAX_REQUESTS),
    }
}

// No object has a predecessor.
fn cleared(arcs: usize, mut jump: [u16; 512]) -> [u16; 512]
    requires { arcs ≤ 512 }
    ensures { result ≡ cleared arcs jump }
{
    for a in 0..arcs {
        jump[a] = ABSENT;
    }
    jump
}

// What a walk finds, where tests over every object say that it is right.
fn found(arcs: usize, jump: [u16; 512], sum: [u16; 512]) -> Option<Summed>
    requires { arcs ≤ 512 }
    ensures sums { IfSome result (λ (s : Summed). Found arcs jump sum s.sum s.requests s.rounds) }
    ensures few { IfSome result (λ (s : Summed). s.rounds ≤ 16) }
{
    let key = walk::walk(arcs, &jump, &sum);
    let total = tests::of_keys(arcs, &key, sum, tests::sum_in);
    let bounded = bounds::numbers_ok(&sum) & bounds::numbers_ok(&total);
    let right = bounded & tests::keys_right(arcs, &jump, &sum, &key);
    if !right {
        return None;
    }
    let rank = tests::of_keys(arcs, &key, sum, tests::rank_in);
    let asked = tests::asked(arcs, &rank);
    Some(Summed {
        sum: total,
        requests: asked.requests,
        rounds: asked.rounds,
    })
}
