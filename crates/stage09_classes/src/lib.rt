// Stage 9, classes: the components of the auxiliary graph, by stage 1's rule.
#![tactic(auto)]

ghost use Rattle.std.specs.Prelude.{◌≡◌, true, List, ℕ, ◌≤◌, ◌<◌, length, get_or, IfSome};
ghost use Rattle.spec_rules.specs.Aux.{aux_round};
ghost use Rattle.spec_rules.specs.Fits.{EndsWithin};
ghost use Rattle.spec_machine.specs.InStage.{in_stage};
ghost use Rattle.spec_machine.specs.StageRun.{stage_run};
ghost use Rattle.stage09_classes.specs.Leap.{ran};
ghost use Rattle.stage09_aux.specs.Heads.{Heads};
ghost use Rattle.stage09_classes.specs.Rounds.{fits, on, one};

use leap_least::Landed;
use spec_state::Clock;
use table_values::{bounds, propagation};

mod links;
mod tell;

// The table of the stage, the clock, and the rounds made.
#[derive(Clone, Copy)]
pub struct Ran {
    pub color: [u16; 256],
    pub clock: Clock,
    pub made: u16,
}

// Runs up to `budget` rounds of this stage.
pub fn run(
    units: u16,
    links: u16,
    budget: u16,
    ends: &[u16; 2048],
    parent: &[u16; 256],
    linked: &[u16; 1024],
    parents: &[u16; 256],
    clock: Clock,
    color: [u16; 256],
) -> Ran
    ensures { result ≡ stage_run (on units links ends.now parent.now)
        (one units links ends.now parent.now linked.now parents.now) budget
        (record { color = color; clock = clock; made = 0 }) }
{
    let fits = bounds::links_fit(units, links, ends) & bounds::names_ok(units as u32, parent);
    if let Some(rest) = leapt(
        fits, units, links, budget, ends, parent, linked, parents, clock, color,
    ) {
        // Stays: tried as a pattern and in the literal; the check does not cover a field there that is an array.
        let value = rest.value;
        return Ran {
            color: value,
            clock: rest.clock,
            made: rest.made,
        };
    }
    rounds(
        fits, units, links, budget, ends, parent, linked, parents, clock, color,
    )
}

// The whole stage at once, where that pays and is found right.
fn leapt(
    fit: bool,
    units: u16,
    links: u16,
    budget: u16,
    ends: &[u16; 2048],
    parent: &[u16; 256],
    linked: &[u16; 1024],
    parents: &[u16; 256],
    clock: Clock,
    color: [u16; 256],
) -> Option<Landed>
    requires { fit ≡ fits units links ends.now parent.now }
    ensures { IfSome result (λ rest. ran rest.value rest.clock rest.made
        ≡ stage_run (on units links ends.now parent.now)
        (one units links ends.now parent.now linked.now parents.now) budget
        (record { color = color; clock = clock; made = 0 })) }
{
    let goes_on = stage_clock::goes_on(fit, units, 9, 0, budget, clock);
    if !goes_on || !pays(units, budget, clock.made, parents) {
        return None;
    }
    over_pairs(
        units, links, budget, ends, parent, linked, parents, clock, color,
    )
}

// Whether a leap is likely to pay: the stage begins, the budget covers a round for each unit, which is the most there
// can be, and many rounds are to be expected: there are not few units, and some unit joins its parent. All but the
// first affect speed only.
fn pays(units: u16, budget: u16, made: u16, parents: &[u16; 256]) -> bool
    ensures { result ≡ true → made ≡ 0 }
{
    made == 0 && units >= 32 && units <= budget && some_joins(parents)
}

// Whether a unit joins its parent. Every mark is looked at, without a branch.
fn some_joins(parents: &[u16; 256]) -> bool {
    let mut some = false;
    for mark in parents {
        some |= *mark != 0;
    }
    some
}

// Over the joins as pairs.
fn over_pairs(
    units: u16,
    links: u16,
    budget: u16,
    ends: &[u16; 2048],
    parent: &[u16; 256],
    linked: &[u16; 1024],
    parents: &[u16; 256],
    clock: Clock,
    color: [u16; 256],
) -> Option<Landed>
    requires { (units ≤ 256) × (fits units links ends.now parent.now ≡ true) × (in_stage units 9 clock ≡ true)
        × (clock.made ≡ 0) }
    ensures { IfSome result (λ rest. ran rest.value rest.clock rest.made
        ≡ stage_run (on units links ends.now parent.now)
        (one units links ends.now parent.now linked.now parents.now) budget
        (record { color = color; clock = clock; made = 0 })) }
{
    let mut table = [0; 2560];
    let count = stage09_aux::pairs::joins(units, links, ends, parent, linked, parents, &mut table);
    let value = propagation::said(units, 0, color);
    let said = stage09_aux::heads::without_roots(units, parent, value);
    let most = units.saturating_sub(1).max(2);
    leap_least::leap(units, count, &table, most, budget, said, clock, 0)
}

// Runs up to `budget` rounds of this stage, one after the other.
fn rounds(
    fit: bool,
    units: u16,
    links: u16,
    budget: u16,
    ends: &[u16; 2048],
    parent: &[u16; 256],
    linked: &[u16; 1024],
    parents: &[u16; 256],
    clock: Clock,
    color: [u16; 256],
) -> Ran
    requires { (fit ≡ fits units links ends.now parent.now) × (length ends.now ≡ 2048) }
    ensures { result ≡ stage_run (on units links ends.now parent.now)
        (one units links ends.now parent.now linked.now parents.now) budget
        (record { color = color; clock = clock; made = 0 }) }
{
    let heads = stage09_aux::heads::of(units, parent, parents);
    let mut value = color;
    let mut c = clock;
    let mut made: u16 = 0;
    while stage_clock::goes_on(fit, units, 9, made, budget, c) {
        let new = round(units, links, c.made, ends, parent, linked, &heads, value);
        let done = propagation::ends(units, c.made, &value, &new);
        let after = stage_clock::ticked(units, 9, done, 0, c);
        value = new;
        c = after;
        made += 1;
    }
    Ran {
        color: value,
        clock: c,
        made,
    }
}

// The classes after a round. A root says the absent mark, which lowers no word: so no join asks for roots, and what
// they took in is written over at the end.
fn round(
    units: u16,
    links: u16,
    made: u16,
    ends: &[u16; 2048],
    parent: &[u16; 256],
    linked: &[u16; 1024],
    heads: &[u16; 256],
    color: [u16; 256],
) -> [u16; 256]
    requires { (units ≤ 256) × (links ≤ 1024) × EndsWithin units links ends.now
        × ((u : ℕ) → u < units → get_or heads.now u 0 < units) }
    ensures { (marks : List ℕ) → Heads units parent.now marks heads.now
        → result ≡ aux_round units links made ends.now parent.now linked.now marks color }
{
    let value = propagation::said(units, made, color);
    let said = stage09_aux::heads::without_roots(units, parent, value);
    let mut heard = said;
    links::propagate(units, links, ends, linked, &said, &mut heard);
    let told = tell::propagate(units, heads, &said, &mut heard);
    stage09_aux::heads::least(units, parent, &told, &heard, value)
}
