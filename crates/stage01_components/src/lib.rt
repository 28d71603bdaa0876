// Stage 1, colour: the least unit of each component, by propagation.
#![tactic(auto)]

ghost use Rattle.std.specs.Prelude.{◌≡◌, false, ◌<◌, ◌≤◌, min, length, get_or, set, IfSome};
ghost use Rattle.base_lists.specs.Tables.{over};
ghost use Rattle.spec_rules.specs.Components.{least_heard, color_round};
ghost use Rattle.spec_rules.specs.Fits.{links_fit, EndsWithin};
ghost use Rattle.spec_rules.specs.HeardLaws.{hears};
ghost use Rattle.spec_machine.specs.StageRun.{stage_run};
ghost use Rattle.stage01_components.specs.Leap.{ran};
ghost use Rattle.stage01_components.specs.Near.{Hearer};
ghost use Rattle.stage01_components.specs.Rounds.{on, one};

use leap_least::Landed;
use spec_state::Clock;
use table_values::{bounds, propagation};

// The table of the stage, the clock, and the rounds made.
#[derive(Clone, Copy)]
pub struct Ran {
    pub color: [u16; 256],
    pub clock: Clock,
    pub made: u16,
}

// Runs up to `budget` rounds of this stage.
pub fn run(
    units: u16,
    links: u16,
    budget: u16,
    ends: &[u16; 2048],
    clock: Clock,
    color: [u16; 256],
) -> Ran
    ensures { result ≡ stage_run (on units links ends.now) (one units links ends.now) budget
        (record { color = color; clock = clock; made = 0 }) }
{
    let fits = bounds::links_fit(units, links, ends);
    if let Some(rest) = leapt(fits, units, links, budget, ends, clock, color) {
        // Stays: tried as a pattern and in the literal; the check does not cover a field there that is an array.
        let value = rest.value;
        return Ran {
            color: value,
            clock: rest.clock,
            made: rest.made,
        };
    }
    rounds(fits, units, links, budget, ends, clock, color)
}

// The rest of the stage at once, where that pays and is found right.
fn leapt(
    fits: bool,
    units: u16,
    links: u16,
    budget: u16,
    ends: &[u16; 2048],
    clock: Clock,
    color: [u16; 256],
) -> Option<Landed>
    requires { fits ≡ links_fit units links ends.now }
    ensures { IfSome result (λ rest. ran rest.value rest.clock rest.made
        ≡ stage_run (on units links ends.now) (one units links ends.now) budget
        (record { color = color; clock = clock; made = 0 })) }
{
    let goes_on = stage_clock::goes_on(fits, units, 1, 0, budget, clock);
    if !goes_on || !pays(units, links, budget, ends) {
        return None;
    }
    let said = propagation::said(units, clock.made, color);
    leap_least::leap(units, links, ends, units.max(2), budget, said, clock, 0)
}

// Whether a leap is likely to pay: the budget covers a round for each unit, which is the most there can be, and many
// rounds are to be expected: there are not few units, and the first is not linked with half of them. This affects speed
// only.
fn pays(units: u16, links: u16, budget: u16, ends: &[u16; 2048]) -> bool {
    units >= 32 && units <= budget && first_named(links, ends) < units / 2
}

// How often the first unit is named.
fn first_named(links: u16, ends: &[u16; 2048]) -> u16 {
    let words = 2 * links.min(1024) as usize;
    let mut count = 0;
    for x in &ends[..words] {
        count += u16::from(*x == 0);
    }
    count
}

// Runs up to `budget` rounds of this stage, one after the other.
fn rounds(
    fits: bool,
    units: u16,
    links: u16,
    budget: u16,
    ends: &[u16; 2048],
    clock: Clock,
    color: [u16; 256],
) -> Ran
    requires { fits ≡ links_fit units links ends.now }
    ensures { result ≡ stage_run (on units links ends.now) (one units links ends.now) budget
        (record { color = color; clock = clock; made = 0 }) }
{
    let mut value = color;
    let mut c = clock;
    let mut made: u16 = 0;
    while stage_clock::goes_on(fits, units, 1, made, budget, c) {
        let new = round(units, links, c.made, ends, value);
        let done = propagation::ends(units, c.made, &value, &new);
        let after = stage_clock::ticked(units, 1, done, 0, c);
        value = new;
        c = after;
        made += 1;
    }
    Ran {
        color: value,
        clock: c,
        made,
    }
}

// The colors after a round.
fn round(units: u16, links: u16, made: u16, ends: &[u16], color: [u16; 256]) -> [u16; 256]
    requires { (units ≤ 256) × EndsWithin units links ends.now }
    ensures { result ≡ color_round units links made ends.now color }
{
    heard(units, links, ends, propagation::said(units, made, color))
}

// The least that each unit hears, itself included, over links whose ends all exist.
fn heard(n: u16, links: u16, ends: &[u16], value: [u16; 256]) -> [u16; 256]
    requires { (n ≤ 256) × EndsWithin n links ends.now }
    ensures { result ≡ over n (least_heard links ends.now value) value }
{
    let mut new = value;
    for j in 0..links {
        let at = 2 * j as usize;
        let a = ends[at];
        let b = ends[at + 1];
        hear(n, &value, a, b, &mut new);
    }
    new
}

// A link of two units that exist. None has more than it says, so that only the end that says more can come to less;
// where both say the same, the first takes in what it says itself. No branch: which end says more is up to chance.
fn hear(n: u16, said: &[u16], a: u16, b: u16, t: &mut [u16])
    requires { Hearer n said.now t.old a × Hearer n said.now t.old b }
    ensures { t.new ≡ hears false n said.now a b t.old }
{
    let at_a = a as usize;
    let at_b = b as usize;
    let x = said[at_a];
    let y = said[at_b];
    lower(t, base_choice::choose(x < y, b, a), x.min(y));
}

// `x` at `i` where that is less.
fn lower(t: &mut [u16], i: u16, x: u16)
    requires { i < length t.old }
    ensures { t.new ≡ set t.old i (min (get_or t.old i 0) x) }
{
    let at = i as usize;
    if x < t[at] {
        t[at] = x;
    }
}
