// A live table (T-09) in the words that a caller lends: opened, and changed by a link at a time. A number that comes
// back is that of the refusal, 0 where the call was not refused; on a refusal no word is altered.
#![tactic(auto)]

mod layout;

ghost use Rattle.std.specs.Prelude.{◌≡◌};
ghost use Rattle.live_table.specs.LiveCalls.{open_answer, add_answer, withdraw_answer};
ghost use Rattle.value_live.specs.View.{of, answer_of};
ghost use Rattle.words_live.specs.LiveLayout.{live_in, live_words, words_left, live_left};

pub use layout::LIVE_WORDS;
use value_live::{Answer, Live};

// The live table that the words are.
fn live_at(words: &[u16; LIVE_WORDS]) -> Live
    ensures { of result ≡ live_in words.now }
{
    let ends = base_copies::table_at(words, layout::ENDS);
    let levels = base_copies::levels_at(words, layout::LEVELS);
    let counts = base_copies::table_at(words, layout::COUNTS);
    Live {
        units: words[layout::UNITS],
        links: words[layout::LINKS],
        ends,
        levels,
        counts,
    }
}

// A live table over any words.
fn lay_live(l: Live, words: &mut [u16; LIVE_WORDS])
    ensures words { words.new ≡ live_words (of l) }
    ensures live { live_in words.new ≡ of l }
{
    base_copies::lay(&[l.units, l.links], layout::UNITS, words);
    base_copies::lay(&l.ends, layout::ENDS, words);
    let levels = table_levels::words_of(&l.levels);
    base_copies::lay(&levels, layout::LEVELS, words);
    base_copies::lay(&l.counts, layout::COUNTS, words);
}

// What a call made, unless it was refused; its number.
fn put(made: Answer, words: &mut [u16; LIVE_WORDS]) -> u32
    ensures number { result ≡ made.number }
    ensures words { words.new ≡ words_left (answer_of made) words.old }
    ensures live { live_in words.new ≡ live_left (answer_of made) (live_in words.old) }
{
    let number = made.number;
    if number != 0 {
        return number as u32;
    }
    lay_live(made.live, words);
    0
}

// From load's tables: 4, 5, 6, 15, 16, 7, 8, 9.
pub fn opened(live: &mut [u16; LIVE_WORDS], units: u16, table: &[u16], levels: &[i16]) -> u32
    ensures number { result ≡ (open_answer
        (record { units = units; words = table.now; levels = levels.now })).number }
    ensures words { live.new
        ≡ words_left (open_answer (record { units = units; words = table.now; levels = levels.now }))
        live.old }
    ensures live { live_in live.new
        ≡ live_left (open_answer (record { units = units; words = table.now; levels = levels.now }))
        (live_in live.old) }
{
    put(Live::opened(units, table, levels), live)
}

// A link at the end: 4, 6, 16, 7, 8, 9, 10 of the table; 6, 16, 7, 8, 9 of the link.
pub fn add(live: &mut [u16; LIVE_WORDS], a: u16, b: u16, level: i16) -> u32
    ensures number { result ≡ (add_answer a b level (live_in live.old)).number }
    ensures words { live.new
        ≡ words_left (add_answer a b level (live_in live.old)) live.old }
    ensures live { live_in live.new ≡ (add_answer a b level (live_in live.old)).live }
{
    let given = live_at(live);
    put(given.add(a, b, level), live)
}

// The link that joins two units, named in either order: 4, 6, 16, 7, 8, 9, 10 of the table; 7, 8, 21 of the units.
pub fn withdraw(live: &mut [u16; LIVE_WORDS], a: u16, b: u16) -> u32
    ensures number { result ≡ (withdraw_answer a b (live_in live.old)).number }
    ensures words { live.new
        ≡ words_left (withdraw_answer a b (live_in live.old)) live.old }
    ensures live { live_in live.new ≡ (withdraw_answer a b (live_in live.old)).live }
{
    let given = live_at(live);
    put(given.withdraw(a, b), live)
}
