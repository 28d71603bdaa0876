// Whether words are a well-formed state (document 01: kept). The words are judged where they lie; tables of one kind
// that stand in a row are judged together.
ghost use Rattle.std.specs.Prelude.{◌≡◌, Bool, ℕ, ◌+◌, ◌*◌, ◌≤◌, length};
ghost use Rattle.base_lists.specs.Folds.{every};
ghost use Rattle.table_values.specs.Tops.{Tells};
ghost use Rattle.spec_machine.specs.WellFormed.{well_formed, entries_ok};
ghost use Rattle.base_copies.specs.Parts.{part};
ghost use Rattle.words_layout.specs.Layout.{state_of};

use super::layout::STATE_WORDS;
use super::{layout, take};
use table_values::bounds;
use table_values::bounds::Limit;

pub fn kept(words: &[u16; STATE_WORDS]) -> bool
    ensures { result ≡ well_formed (state_of words.now) }
{
    let table = take::table_at(words);
    if !stage_clock::front_ok(table.units, table.links, &table.ends, take::clock_at(words)) {
        return false;
    }
    entries_ok(table.units, table.links, words)
}

// Every entry of every table.
fn entries_ok(units: u16, links: u16, words: &[u16; STATE_WORDS]) -> bool
    requires { (units ≡ (state_of words.now).table.units) × (links ≡ (state_of words.now).table.links) }
    ensures { result ≡ entries_ok (state_of words.now) }
{
    let unit = bounds::names(units as u32);
    let ends = within(unit, layout::ENDS, 2048, words);
    let trees = within(unit, layout::COLOR, layout::TREES, words);
    let classes = within(unit, layout::CLASSES, layout::NAMED, words);
    let drawn = within(unit, layout::PLAN, 256, words);
    let arc = bounds::names(2 * (units as u32));
    let arcs = within(arc, layout::NEXT, layout::ARCS, words);
    let link = bounds::names(links as u32);
    let labels = within(link, layout::LABEL, 1024, words);
    let dists = within(bounds::dists(), layout::DIST, 256, words);
    let number = bounds::numbers();
    let numbers = within(number, layout::SUM, layout::NUMBERS, words);
    let given = within(number, layout::GIVEN, 1, words);
    let levels = within(bounds::levels(), layout::LEVELS, 1024, words);
    ends & (trees & classes & drawn) & arcs & labels & dists & numbers & levels & given
}

// Every one of n words from a place on passes.
fn within(limit: Limit, at: usize, n: usize, words: &[u16]) -> bool
    requires { at + n ≤ length words.now }
    ensures { (p : ℕ → Bool) → Tells limit.more limit.most p →
        result ≡ every p (part at n words.now) }
{
    bounds::within(limit, &words[at..at + n])
}
