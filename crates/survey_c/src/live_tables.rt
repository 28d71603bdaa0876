// Live tables (T-09) for callers in C: an array of words that the caller lends (words_live/specs/LiveLayout.antt).
ghost use Rattle.std.specs.Prelude.{◌≡◌};
ghost use Rattle.live_table.specs.LiveCalls.{open_answer, add_answer, withdraw_answer};
ghost use Rattle.words_live.specs.LiveLayout.{live_in, words_left, live_left};

use words_live::LIVE_WORDS;

// From load's tables: 4, 5, 6, 15, 16, 7, 8, 9.
#[unsafe(no_mangle)]
pub extern "C" fn link_survey_live_open(
    live: &mut [u16; LIVE_WORDS],
    units: u16,
    table: &[u16],
    levels: &[i16],
) -> u32
    ensures number { result ≡ (open_answer
        (record { units = units; words = table.now; levels = levels.now })).number }
    ensures words { live.new
        ≡ words_left (open_answer (record { units = units; words = table.now; levels = levels.now }))
        live.old }
    ensures live { live_in live.new
        ≡ live_left (open_answer (record { units = units; words = table.now; levels = levels.now }))
        (live_in live.old) }
{
    words_live::opened(live, units, table, levels)
}

// A link at the end: 4, 6, 16, 7, 8, 9, 10 of the table; 6, 16, 7, 8, 9 of the link.
#[unsafe(no_mangle)]
pub extern "C" fn link_survey_live_add(
    live: &mut [u16; LIVE_WORDS],
    a: u16,
    b: u16,
    level: i16,
) -> u32
    ensures number { result ≡ (add_answer a b level (live_in live.old)).number }
    ensures words { live.new
        ≡ words_left (add_answer a b level (live_in live.old)) live.old }
    ensures live { live_in live.new ≡ (add_answer a b level (live_in live.old)).live }
{
    words_live::add(live, a, b, level)
}

// The link that joins two units, named in either order: 4, 6, 16, 7, 8, 9, 10 of the table; 7, 8, 21 of the units.
#[unsafe(no_mangle)]
pub extern "C" fn link_survey_live_withdraw(live: &mut [u16; LIVE_WORDS], a: u16, b: u16) -> u32
    ensures number { result ≡ (withdraw_answer a b (live_in live.old)).number }
    ensures words { live.new
        ≡ words_left (withdraw_answer a b (live_in live.old)) live.old }
    ensures live { live_in live.new ≡ (withdraw_answer a b (live_in live.old)).live }
{
    words_live::withdraw(live, a, b)
}
