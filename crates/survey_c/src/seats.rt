// Several sites over one channel (T-12) for callers in C: eight states in words that the caller lends, and whose turn
// it is, a record that the caller lends too. What a call leaves in the seats is settled word for word
// (words_seats/specs/SeatsLeft.antt).
ghost use Rattle.std.specs.Prelude.{◌≡◌, ℕ};
ghost use Rattle.spec_channel.specs.Office.{tick_refusal, tick, fresh, stored, planned, seat_refusal, load_seat};
ghost use Rattle.words_seats.specs.Lent.{office_of};
ghost use Rattle.words_seats.specs.SeatsLeft.{TickedWords, LoadedSeat};

use channel_turns::Turn;
use words_layout::STATE_WORDS;

// A load of a seat: 23, then 4 to 6, 15, 16, 7 to 9, 22. The other seats and the turn stay.
#[unsafe(no_mangle)]
pub extern "C" fn link_survey_seat_load(
    seats: &mut [[u16; STATE_WORDS]; 8],
    seat: u16,
    units: u16,
    table: &[u16],
    levels: &[i16],
) -> u32
    ensures number { result ≡ seat_refusal seat (fresh
        (record { units = units; words = table.now; levels = levels.now })) }
    ensures seats { (last : ℕ) → office_of last seats.new ≡ load_seat seat (fresh
        (record { units = units; words = table.now; levels = levels.now }))
        (office_of last seats.old) }
    ensures words { LoadedSeat seat (fresh
        (record { units = units; words = table.now; levels = levels.now }))
        seats.old seats.new }
{
    words_seats::load(seats, seat, units, table, levels)
}

// Of a stored table: 23, then 4 to 6, 15, 16, 7 to 9.
#[unsafe(no_mangle)]
pub extern "C" fn link_survey_seat_load_stored(
    seats: &mut [[u16; STATE_WORDS]; 8],
    seat: u16,
    units: u16,
    table: &[u16],
    levels: &[i16],
) -> u32
    ensures number { result ≡ seat_refusal seat (stored
        (record { units = units; words = table.now; levels = levels.now })) }
    ensures seats { (last : ℕ) → office_of last seats.new ≡ load_seat seat (stored
        (record { units = units; words = table.now; levels = levels.now }))
        (office_of last seats.old) }
    ensures words { LoadedSeat seat (stored
        (record { units = units; words = table.now; levels = levels.now }))
        seats.old seats.new }
{
    words_seats::load_stored(seats, seat, units, table, levels)
}

// With a table of parents drawn by the planner: 23, then 4 to 6, 15, 16, 7 to 9, 17, 18, 22.
#[unsafe(no_mangle)]
pub extern "C" fn link_survey_seat_load_planned(
    seats: &mut [[u16; STATE_WORDS]; 8],
    seat: u16,
    units: u16,
    table: &[u16],
    levels: &[i16],
    parents: &[u16],
) -> u32
    ensures number { result ≡ seat_refusal seat (planned
        (record { units = units; words = table.now; levels = levels.now }) parents.now) }
    ensures seats { (last : ℕ) → office_of last seats.new ≡ load_seat seat (planned
        (record { units = units; words = table.now; levels = levels.now }) parents.now)
        (office_of last seats.old) }
    ensures words { LoadedSeat seat (planned
        (record { units = units; words = table.now; levels = levels.now }) parents.now)
        seats.old seats.new }
{
    words_seats::load_planned(seats, seat, units, table, levels, parents)
}

// A tick: 10, 11. One round to the seat whose turn it is, whose number goes to the turn.
#[unsafe(no_mangle)]
pub extern "C" fn link_survey_tick(turn: &mut Turn, seats: &mut [[u16; STATE_WORDS]; 8]) -> u32
    ensures { (result ≡ tick_refusal (office_of turn.old.last seats.old))
        × (office_of turn.new.last seats.new
        ≡ tick (office_of turn.old.last seats.old))
        × TickedWords turn.old.last turn.new.last seats.old seats.new }
{
    words_seats::tick(turn, seats)
}
