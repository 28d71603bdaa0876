// The groups of a state, taken out of its words.
ghost use Rattle.std.specs.Prelude.{◌≡◌};
ghost use Rattle.words_layout.specs.Layout.{state_of};
ghost use Rattle.words_layout.specs.Bare.{bare_of};

use super::layout;
use super::layout::STATE_WORDS;
use spec_state::{Aux, Clock, Components, Global, Labels, Order, Plan, Range, Ranking, Tour, Tree};

// The table of links without its levels, which few calls read.
#[derive(Clone, Copy)]
pub struct BareTable {
    pub units: u16,
    pub links: u16,
    pub ends: [u16; 2048],
}

// The counts and the ends.
pub fn table_at(words: &[u16; STATE_WORDS]) -> BareTable
    ensures { result ≡ bare_of (state_of words.now).table }
{
    let ends = base_copies::table_at(words, layout::ENDS);
    BareTable {
        units: words[layout::UNITS],
        links: words[layout::LINKS],
        ends,
    }
}

// The levels.
pub fn levels_at(words: &[u16; STATE_WORDS]) -> [i16; 1024]
    ensures { result ≡ (state_of words.now).table.levels }
{
    base_copies::levels_at(words, layout::LEVELS)
}

// The clock.
pub fn clock_at(words: &[u16; STATE_WORDS]) -> Clock
    ensures { result ≡ (state_of words.now).clock }
{
    Clock {
        stage: words[layout::CLOCK],
        made: words[layout::CLOCK + 1],
        rounds: words[layout::CLOCK + 2],
        requests: words[layout::CLOCK + 3],
    }
}

// Stage 1.
pub fn components_at(words: &[u16; STATE_WORDS]) -> Components
    ensures { result ≡ (state_of words.now).components }
{
    let color = base_copies::table_at(words, layout::COLOR);
    Components { color }
}

// The planner's tree.
pub fn plan_at(words: &[u16; STATE_WORDS]) -> Plan
    ensures { result ≡ (state_of words.now).plan }
{
    let parent = base_copies::table_at(words, layout::PLAN);
    Plan {
        given: words[layout::GIVEN],
        parent,
    }
}

// Stage 2.
pub fn tree_at(words: &[u16; STATE_WORDS]) -> Tree
    ensures { result ≡ (state_of words.now).tree }
{
    let parent = base_copies::table_at(words, layout::PARENT);
    let dist = base_copies::table_at(words, layout::DIST);
    Tree { parent, dist }
}

// Stage 3.
pub fn tour_at(words: &[u16; STATE_WORDS]) -> Tour
    ensures { result ≡ (state_of words.now).tour }
{
    let next = base_copies::table_at(words, layout::NEXT);
    let pred = base_copies::table_at(words, layout::PRED);
    Tour { next, pred }
}

// Stages 4 and 6.
pub fn ranking_at(words: &[u16; STATE_WORDS]) -> Ranking
    ensures { result ≡ (state_of words.now).ranking }
{
    let jump = base_copies::table_at(words, layout::JUMP);
    let sum = base_copies::table_at(words, layout::SUM);
    Ranking { jump, sum }
}

// Stages 5 and 6.
pub fn order_at(words: &[u16; STATE_WORDS]) -> Order
    ensures { result ≡ (state_of words.now).order }
{
    let forward = base_copies::table_at(words, layout::FORWARD);
    let nd = base_copies::table_at(words, layout::ND);
    let pre = base_copies::table_at(words, layout::PRE);
    Order { forward, nd, pre }
}

// Stage 7.
pub fn range_at(words: &[u16; STATE_WORDS]) -> Range
    ensures { result ≡ (state_of words.now).range }
{
    let low = base_copies::table_at(words, layout::LOW);
    let high = base_copies::table_at(words, layout::HIGH);
    let little = base_copies::table_at(words, layout::LITTLE);
    let big = base_copies::table_at(words, layout::BIG);
    Range {
        low,
        high,
        little,
        big,
    }
}

// Stage 7, the segments.
pub fn global_at(words: &[u16; STATE_WORDS]) -> Global
    ensures { result ≡ (state_of words.now).global }
{
    let low = base_copies::table_at(words, layout::LEAST);
    let high = base_copies::table_at(words, layout::GREATEST);
    Global { low, high }
}

// Stages 8 and 9.
pub fn aux_at(words: &[u16; STATE_WORDS]) -> Aux
    ensures { result ≡ (state_of words.now).aux }
{
    let parents = base_copies::table_at(words, layout::PARENTS);
    let links = base_copies::table_at(words, layout::JOINED);
    let color = base_copies::table_at(words, layout::CLASSES);
    Aux {
        parents,
        links,
        color,
    }
}

// Stage 10.
pub fn labels_at(words: &[u16; STATE_WORDS]) -> Labels
    ensures { result ≡ (state_of words.now).labels }
{
    let class = base_copies::table_at(words, layout::CLASS);
    let label = base_copies::table_at(words, layout::LABEL);
    Labels { class, label }
}
