// Several sites over one channel (T-12): eight seats in words that the caller lends, and whose turn it is. A seat is
// the words of a survey, empty while its unit count and its stage are 0, so that cleared memory is eight empty seats. A
// number that comes back is that of a refusal, 0 where there was none; on a refusal nothing lent is altered.

#![tactic(auto)]

ghost use Rattle.std.specs.Prelude.{◌≡◌, ℕ};
ghost use Rattle.spec_channel.specs.Office.{tick_refusal, tick, fresh, stored, planned, seat_refusal, load_seat};
ghost use Rattle.words_seats.specs.Lent.{office_of};
ghost use Rattle.words_seats.specs.SeatsLeft.{TickedWords, LoadedSeat};

pub use channel_turns::{Turn, pick};
use words_layout::STATE_WORDS;

// Seats are numbered from 0 on.
const LAST_SEAT: u16 = 7;

// The refusals of these calls, as C has them.
const NOT_KEPT: u32 = table_refusals::NOT_KEPT as u32;

const AT_END: u32 = table_refusals::AT_END as u32;

const NO_SUCH_SEAT: u32 = table_refusals::NO_SUCH_SEAT as u32;

// What a tick replies: its number, and the seat last served after it.
#[derive(Clone, Copy)]
pub struct Served {
    pub number: u32,
    pub last: u16,
}

// A tick: one round to the seat whose turn it is. 10, 11. It is what C gets (survey_c); a caller in Rattle, who would
// need a walk of its own (docs/DECISIONS.md, T-12f), takes `serve`.
pub fn tick(turn: &mut Turn, seats: &mut [[u16; STATE_WORDS]; 8]) -> u32
    ensures { (result ≡ tick_refusal (office_of turn.old.last seats.old))
        × (office_of turn.new.last seats.new
        ≡ tick (office_of turn.old.last seats.old))
        × TickedWords turn.old.last turn.new.last seats.old seats.new }
{
    let last = turn.last;
    let r = serve(last, seats);
    turn.last = r.last;
    r.number
}

// The same with the turn by value: 10, 11. Every loaded seat is judged once, the one that is served by its round.
pub fn serve(last: u16, seats: &mut [[u16; STATE_WORDS]; 8]) -> Served
    ensures { (result.number ≡ tick_refusal (office_of last seats.old))
        × (office_of result.last seats.new ≡ tick (office_of last seats.old))
        × TickedWords last result.last seats.old seats.new }
{
    words_known::seats(seats);
    if LAST_SEAT < last {
        return Served {
            number: NOT_KEPT,
            last,
        };
    }
    let next = channel_turns::pick(last, words_seat_tests::flags(seats));
    if !words_seat_tests::others_sound(seats, next) {
        return Served {
            number: NOT_KEPT,
            last,
        };
    }
    if LAST_SEAT < next {
        return Served {
            number: AT_END,
            last,
        };
    }
    let number = words_run::round(&mut seats[next as usize]);
    words_known::seats(seats);
    if number != 0 {
        return Served { number, last };
    }
    Served {
        number: 0,
        last: next,
    }
}

// A load of a seat, of a fresh table: 23, then the load's own. The turn stays, whatever it is.
pub fn load(
    seats: &mut [[u16; STATE_WORDS]; 8],
    seat: u16,
    units: u16,
    table: &[u16],
    levels: &[i16],
) -> u32
    ensures number { result ≡ seat_refusal seat (fresh
        (record { units = units; words = table.now; levels = levels.now })) }
    ensures seats { (last : ℕ) → office_of last seats.new ≡ load_seat seat (fresh
        (record { units = units; words = table.now; levels = levels.now }))
        (office_of last seats.old) }
    ensures words { LoadedSeat seat (fresh
        (record { units = units; words = table.now; levels = levels.now }))
        seats.old seats.new }
{
    words_known::seats(seats);
    if LAST_SEAT < seat {
        return NO_SUCH_SEAT;
    }
    let number = words_load::load(units, table, levels, &mut seats[seat as usize]);
    words_known::seats(seats);
    number as u32
}

// Of a stored table.
pub fn load_stored(
    seats: &mut [[u16; STATE_WORDS]; 8],
    seat: u16,
    units: u16,
    table: &[u16],
    levels: &[i16],
) -> u32
    ensures number { result ≡ seat_refusal seat (stored
        (record { units = units; words = table.now; levels = levels.now })) }
    ensures seats { (last : ℕ) → office_of last seats.new ≡ load_seat seat (stored
        (record { units = units; words = table.now; levels = levels.now }))
        (office_of last seats.old) }
    ensures words { LoadedSeat seat (stored
        (record { units = units; words = table.now; levels = levels.now }))
        seats.old seats.new }
{
    words_known::seats(seats);
    if LAST_SEAT < seat {
        return NO_SUCH_SEAT;
    }
    let number = words_load::load_stored(units, table, levels, &mut seats[seat as usize]);
    words_known::seats(seats);
    number as u32
}

// With a table of parents drawn by the planner.
pub fn load_planned(
    seats: &mut [[u16; STATE_WORDS]; 8],
    seat: u16,
    units: u16,
    table: &[u16],
    levels: &[i16],
    parents: &[u16],
) -> u32
    ensures number { result ≡ seat_refusal seat (planned
        (record { units = units; words = table.now; levels = levels.now }) parents.now) }
    ensures seats { (last : ℕ) → office_of last seats.new ≡ load_seat seat (planned
        (record { units = units; words = table.now; levels = levels.now }) parents.now)
        (office_of last seats.old) }
    ensures words { LoadedSeat seat (planned
        (record { units = units; words = table.now; levels = levels.now }) parents.now)
        seats.old seats.new }
{
    words_known::seats(seats);
    if LAST_SEAT < seat {
        return NO_SUCH_SEAT;
    }
    let number = words_load::load_planned(units, table, levels, parents, &mut seats[seat as usize]);
    words_known::seats(seats);
    number as u32
}
