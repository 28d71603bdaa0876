// Stage 10, labels: the class of each link, and its label, the least position in its class.
#![tactic(auto)]

ghost use Rattle.std.specs.Prelude.{◌≡◌, cond, ◌&&◌, ◌≤◌, ◌<◌, min};
ghost use Rattle.spec_rules.specs.Fits.{EndsWithin};
ghost use Rattle.spec_rules.specs.Labels.{naming_unit, class_round, label_round};
ghost use Rattle.spec_machine.specs.StageRun.{stage_run};
ghost use Rattle.stage10_labels.specs.Rounds.{on, one};

use spec_state::Clock;
use table::ABSENT;
use table_values::{bounds, firsts};

// The tables of the stage, the clock, and the rounds made.
#[derive(Clone, Copy)]
pub struct Ran {
    pub class: [u16; 1024],
    pub label: [u16; 1024],
    pub clock: Clock,
    pub made: u16,
}

// Runs up to `budget` rounds of this stage: classes, then labels.
pub fn run(
    units: u16,
    links: u16,
    budget: u16,
    ends: &[u16; 2048],
    parent: &[u16; 256],
    pre: &[u16; 256],
    color: &[u16; 256],
    clock: Clock,
    class: [u16; 1024],
    label: [u16; 1024],
) -> Ran
    ensures { result ≡ stage_run (on units links ends.now)
        (one units links ends.now parent.now pre.now color.now) budget
        (record { class = class; label = label; clock = clock; made = 0 }) }
{
    let fits = bounds::links_fit(units, links, ends);
    let mut named = class;
    let mut said = label;
    let mut c = clock;
    let mut made: u16 = 0;
    while stage_clock::goes_on(fits, units, 10, made, budget, c) {
        let after = stage_clock::ticked(units, 10, c.made == 1, 0, c);
        if c.made == 0 {
            let new = class_round(units, links, ends, parent, pre, color, named);
            named = new;
            c = after;
            made += 1;
            continue;
        }
        let new = label_round(links, &named, said);
        said = new;
        c = after;
        made += 1;
    }
    Ran {
        class: named,
        label: said,
        clock: c,
        made,
    }
}

// Round one: the classes.
fn class_round(
    units: u16,
    links: u16,
    ends: &[u16; 2048],
    parent: &[u16; 256],
    pre: &[u16; 256],
    color: &[u16; 256],
    class: [u16; 1024],
) -> [u16; 1024]
    requires { (units ≤ 256) × (links ≤ 1024) × EndsWithin units links ends.now }
    ensures { result ≡ class_round links ends.now parent.now pre.now
        color.now class }
{
    let mut new = class;
    for j in 0..links {
        let at = j as usize;
        let u = naming(parent, pre, ends[2 * at], ends[2 * at + 1]);
        new[at] = color[u as usize];
    }
    new
}

// The unit that names the link of two units.
fn naming(parent: &[u16; 256], pre: &[u16; 256], a: u16, b: u16) -> u16
    requires { (a < 256) × (b < 256) }
    ensures exact { result ≡ naming_unit parent.now pre.now a b }
    ensures within { result < 256 }
{
    let at_a = a as usize;
    let at_b = b as usize;
    let up = parent[at_a] == b;
    let down = parent[at_b] == a;
    let before = pre[at_b] < pre[at_a];
    named(up, down, before, a, b)
}

// The same, by whether `b` is the parent of `a`, `a` that of `b`, and `b` has the lesser place. The place, known last
// and up to chance, picks from what a parent picked: the compiler makes no branch of that.
fn named(up: bool, down: bool, before: bool, a: u16, b: u16) -> u16
    ensures { result ≡ cond (up && down) (min a b) (cond down b (cond up a (cond before a b))) }
{
    let off = base_choice::choose(before, a, base_choice::choose(up, a, b));
    let one = base_choice::choose(down, b, off);
    base_choice::choose(up & down, a.min(b), one)
}

// Round two: the labels.
fn label_round(links: u16, class: &[u16; 1024], label: [u16; 1024]) -> [u16; 1024]
    requires { links ≤ 1024 }
    ensures { result ≡ label_round links class.now label }
{
    let first = firsts::firsts(links, class);
    let absent = firsts::first_at(links, class, ABSENT);
    let mut new = label;
    for j in 0..links {
        let at = j as usize;
        new[at] = firsts::first_by(links, class, &first, absent, class[at]);
    }
    new
}
