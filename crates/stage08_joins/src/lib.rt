// Stage 8, joins: the edges of the auxiliary graph, whose vertices are the tree links, each named by its lower unit.
#![tactic(auto)]

ghost use Rattle.std.specs.Prelude.{◌≡◌, ◌+◌, ◌≤◌, ◌<◌, leb, ltb, cond, ◌&&◌};
ghost use Rattle.spec_rules.specs.Fits.{EndsWithin};
ghost use Rattle.spec_rules.specs.Aux.{joins_ends, link_joins_round, joins_parent, parent_joins_round};
ghost use Rattle.spec_machine.specs.StageRun.{stage_run};
ghost use Rattle.stage08_joins.specs.Rounds.{on, one};

use spec_state::Clock;
use table::ABSENT;
use table_values::{bounds, tables};

// The tables of the stage, the clock, and the rounds made.
#[derive(Clone, Copy)]
pub struct Ran {
    pub parents: [u16; 256],
    pub links: [u16; 1024],
    pub clock: Clock,
    pub made: u16,
}

// Runs up to `budget` rounds of this stage.
pub fn run(
    units: u16,
    links: u16,
    budget: u16,
    ends: &[u16; 2048],
    parent: &[u16; 256],
    nd: &[u16; 256],
    pre: &[u16; 256],
    low: &[u16; 256],
    high: &[u16; 256],
    clock: Clock,
    parents: [u16; 256],
    linked: [u16; 1024],
) -> Ran
    ensures { result ≡ stage_run (on units links ends.now)
        (one units links ends.now parent.now nd.now
        pre.now low.now high.now) budget
        (record { parents = parents; links = linked; clock = clock; made = 0 }) }
{
    let fits = bounds::links_fit(units, links, ends);
    let mut upward = parents;
    let mut across = linked;
    let mut c = clock;
    let mut made: u16 = 0;
    while stage_clock::goes_on(fits, units, 8, made, budget, c) {
        let new = parent_joins(units, parent, nd, pre, low, high, upward);
        let new_links = link_joins(units, links, ends, parent, nd, pre, across);
        let after = stage_clock::ticked(units, 8, true, 0, c);
        upward = new;
        across = new_links;
        c = after;
        made += 1;
    }
    Ran {
        parents: upward,
        links: across,
        clock: c,
        made,
    }
}

// 1 for each link that joins its ends, else 0.
fn link_joins(
    units: u16,
    links: u16,
    ends: &[u16; 2048],
    parent: &[u16; 256],
    nd: &[u16; 256],
    pre: &[u16; 256],
    marks: [u16; 1024],
) -> [u16; 1024]
    requires { (units ≤ 256) × (links ≤ 1024) × EndsWithin units links ends.now }
    ensures { result ≡ link_joins_round links ends.now parent.now nd.now
        pre.now marks }
{
    let mut new = marks;
    for j in 0..links {
        let at = j as usize;
        new[at] = link_join(parent, nd, pre, ends[2 * at], ends[2 * at + 1]);
    }
    new
}

// 1 where a link of two units is off the tree and neither is the other's ancestor, else 0.
fn link_join(parent: &[u16; 256], nd: &[u16; 256], pre: &[u16; 256], a: u16, b: u16) -> u16
    requires { (a < 256) × (b < 256) }
    ensures { result ≡ cond (joins_ends parent.now nd.now pre.now a b) 1 0 }
{
    let off = (parent[a as usize] != b) & (parent[b as usize] != a);
    let here = pre[a as usize];
    let there = pre[b as usize];
    let above = within(here, nd[a as usize], there);
    let below = within(there, nd[b as usize], here);
    base_choice::choose(off & !above & !below, 1, 0)
}

// Whether a place is among the `nd` places from `place` on: those of a unit and its descendants.
fn within(place: u16, nd: u16, other: u16) -> bool
    ensures { result ≡ (leb place other && ltb other (place + nd)) }
{
    (place <= other) & (u32::from(other) < u32::from(place) + u32::from(nd))
}

// 1 for each unit that joins its parent, else 0.
fn parent_joins(
    units: u16,
    parent: &[u16; 256],
    nd: &[u16; 256],
    pre: &[u16; 256],
    low: &[u16; 256],
    high: &[u16; 256],
    marks: [u16; 256],
) -> [u16; 256]
    requires { units ≤ 256 }
    ensures { result ≡ parent_joins_round units parent.now nd.now pre.now
        low.now high.now marks }
{
    let mut new = marks;
    for u in 0..units {
        let joins = joins_parent(parent, nd, pre, low, high, u);
        new[u as usize] = base_choice::choose(joins, 1, 0);
    }
    new
}

// Whether unit `u` joins its parent, which may be absent: its entries are read with a test.
fn joins_parent(
    parent: &[u16; 256],
    nd: &[u16; 256],
    pre: &[u16; 256],
    low: &[u16; 256],
    high: &[u16; 256],
    u: u16,
) -> bool
    requires { u < 256 }
    ensures { result ≡ joins_parent parent.now nd.now pre.now low.now
        high.now u }
{
    let at = u as usize;
    let p = parent[at];
    let place = tables::at(pre, p);
    let past = reaches(place, tables::at(nd, p), high[at]);
    (p != ABSENT) & (tables::at(parent, p) != ABSENT) & ((low[at] < place) | past)
}

// Whether a value is at or past the end of `nd` places from `place` on.
fn reaches(place: u16, nd: u16, high: u16) -> bool
    ensures { result ≡ leb (place + nd) high }
{
    u32::from(place) + u32::from(nd) <= u32::from(high)
}
