// What a tick asks of each seat.
#![tactic(auto)]

ghost use Rattle.std.specs.Prelude.{◌≡◌, false, not, ◌&&◌, [], ℕ, ◌<◌, eqb, length, get_or};
ghost use Rattle.base_lists.specs.Folds.{some};
ghost use Rattle.words_layout.specs.Layout.{state_of};
ghost use Rattle.spec_channel.specs.Office.{empty, waiting, spoilt};

use spec_state::Clock;
use words_layout::STATE_WORDS;

// Whether nothing was loaded: no unit and no stage.
fn empty(seat: &[u16; STATE_WORDS]) -> bool
    ensures { result ≡ empty (state_of seat.now) }
{
    seat[0] == 0 && words_layout::clock_at(seat).stage == 0
}

// Whether its survey is unfinished.
fn waiting(seat: &[u16; STATE_WORDS]) -> bool
    ensures { result ≡ waiting (state_of seat.now) }
{
    !empty(seat) && words_layout::clock_at(seat).stage != Clock::FINISHED
}

// Whether it has a survey that isn't kept.
fn spoilt(seat: &[u16; STATE_WORDS]) -> bool
    ensures { result ≡ spoilt (state_of seat.now) }
{
    !empty(seat) && !words_layout::kept(seat)
}

// Which seats wait.
pub fn flags(seats: &[[u16; STATE_WORDS]; 8]) -> [bool; 8]
    ensures { (i : ℕ) → i < 8 → get_or result i false ≡ waiting (state_of (get_or seats.now i [])) }
{
    let mut waits = [false; 8];
    for i in 0..8 {
        waits[i] = waiting(&seats[i]);
    }
    waits
}

// Whether all others are empty or kept.
pub fn others_sound(seats: &[[u16; STATE_WORDS]], but: u16) -> bool
    ensures { result ≡ not (some (length seats.now)
        (λ (i : ℕ). not (eqb i but) && spoilt (state_of (get_or seats.now i [])))) }
{
    for i in 0..seats.len() {
        if other_spoilt(seats, i, but) {
            return false;
        }
    }
    true
}

// Whether seat i is another than `but` and spoilt.
fn other_spoilt(seats: &[[u16; STATE_WORDS]], i: usize, but: u16) -> bool
    requires { i < length seats.now }
    ensures { result ≡ (not (eqb i but) && spoilt (state_of (get_or seats.now i []))) }
{
    i != but as usize && spoilt(&seats[i])
}
