// What a load sets: each group of a state before any round. Names and distances are absent, all else is 0.
#![tactic(auto)]

ghost use Rattle.std.specs.Prelude.{◌≡◌, ◌++◌, ◌≤◌, length, drop, take};
ghost use Rattle.spec_machine.specs.Load.{absents, silences, first_clock, blank_components, blank_plan, blank_tree};
ghost use Rattle.spec_machine.specs.Load.{blank_tour, blank_ranking, blank_order, blank_range, blank_global, blank_aux};
ghost use Rattle.spec_machine.specs.Load.{blank_labels, ends_of, levels_of, table_of, parents_of, plan_of};

use spec_state::{
    Aux, Clock, Components, Global, Labels, Order, Plan, Range, Ranking, Table, Tour, Tree,
};

// The table of links, from its first 2,048 words and its first 1,024 levels.
pub fn table(units: u16, words: &[u16], levels: &[i16]) -> Table
    ensures { result ≡ table_of (record {
      units = units;
      words = take 2048 words.now;
      levels = take 1024 levels.now;
    }) }
{
    let count = base_copies::held(2048, words.len());
    Table {
        units,
        links: (count / 2) as u16,
        ends: ends(words),
        levels: heard(levels),
    }
}

// The words in an array, absent past the last.
fn ends(words: &[u16]) -> [u16; 2048]
    ensures { result ≡ ends_of (take 2048 words.now) }
{
    let mut ends = blank();
    first_words(words, &mut ends);
    ends
}

// The levels in an array, 0 past the last.
fn heard(levels: &[i16]) -> [i16; 1024]
    ensures { result ≡ levels_of (take 1024 levels.now) }
{
    let mut heard = silent();
    let count = base_copies::held(1024, levels.len());
    levels_in(&levels[..count], &mut heard);
    heard
}

fn blank() -> [u16; 2048]
    ensures { result ≡ absents 2048 }
{
    [65535; 2048]
}

// As many words as there is room for, from the first place on; the rest stays.
fn first_words(words: &[u16], to: &mut [u16])
    ensures { to.new ≡ take (length to.old) words.now
        ++ drop (length (take (length to.old) words.now)) to.old }
{
    let count = base_copies::held(to.len(), words.len());
    base_copies::lay(&words[..count], 0, to);
}

fn silent() -> [i16; 1024]
    ensures { result ≡ silences 1024 }
{
    [0; 1024]
}

// The levels from the first place on; the rest stays.
fn levels_in(levels: &[i16], heard: &mut [i16])
    requires { length levels.now ≤ length heard.old }
    ensures { heard.new ≡ levels.now
        ++ drop (length levels.now) heard.old }
{
    // Stays: `copy_from_slice` goes by addresses, which the archives for other processors may not (`tools/cross`).
    for i in 0..levels.len() {
        let level = levels[i];
        heard[i] = level;
    }
}

// Stage 1, no round made.
pub fn clock() -> Clock
    ensures { result ≡ first_clock }
{
    Clock {
        stage: 1,
        made: 0,
        rounds: 0,
        requests: 0,
    }
}

// Stage 1.
pub fn components() -> Components
    ensures { result ≡ blank_components }
{
    Components {
        color: [65535; 256],
    }
}

// No tree of the planner's.
pub fn unplanned() -> Plan
    ensures { result ≡ blank_plan }
{
    Plan {
        given: 0,
        parent: [65535; 256],
    }
}

// A tree of the planner's, from its first 256 parents.
pub fn plan(parents: &[u16]) -> Plan
    ensures { result ≡ plan_of (take 256 parents.now) }
{
    Plan {
        given: 1,
        parent: drawn(parents),
    }
}

// The parents in an array, absent past the last.
fn drawn(parents: &[u16]) -> [u16; 256]
    ensures { result ≡ parents_of (take 256 parents.now) }
{
    let mut drawn = orphans();
    first_words(parents, &mut drawn);
    drawn
}

fn orphans() -> [u16; 256]
    ensures { result ≡ absents 256 }
{
    [65535; 256]
}

// Stage 2.
pub fn tree() -> Tree
    ensures { result ≡ blank_tree }
{
    Tree {
        parent: [65535; 256],
        dist: [65535; 256],
    }
}

// Stage 3.
pub fn tour() -> Tour
    ensures { result ≡ blank_tour }
{
    Tour {
        next: [65535; 512],
        pred: [65535; 512],
    }
}

// Stages 4 and 6.
pub fn ranking() -> Ranking
    ensures { result ≡ blank_ranking }
{
    Ranking {
        jump: [65535; 512],
        sum: [0; 512],
    }
}

// Stages 5 and 6.
pub fn order() -> Order
    ensures { result ≡ blank_order }
{
    Order {
        forward: [0; 512],
        nd: [0; 256],
        pre: [0; 256],
    }
}

// Stage 7.
pub fn range() -> Range
    ensures { result ≡ blank_range }
{
    Range {
        low: [0; 256],
        high: [0; 256],
        little: [0; 256],
        big: [0; 256],
    }
}

// Stage 7, the segments.
pub fn global() -> Global
    ensures { result ≡ blank_global }
{
    Global {
        low: [0; 256],
        high: [0; 256],
    }
}

// Stages 8 and 9.
pub fn aux() -> Aux
    ensures { result ≡ blank_aux }
{
    Aux {
        parents: [0; 256],
        links: [0; 1024],
        color: [65535; 256],
    }
}

// Stage 10.
pub fn labels() -> Labels
    ensures { result ≡ blank_labels }
{
    Labels {
        class: [65535; 1024],
        label: [65535; 1024],
    }
}
