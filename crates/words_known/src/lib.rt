// What the type of lent words tells: a state is so many words, each of 16 bits, and there are eight seats. Nothing runs
// here. A call that hands its words to these functions before and after its work knows every word that it leaves, and
// not only the state that they are.
#![tactic(auto)]

ghost use Rattle.std.specs.Prelude.{◌≡◌, [], ℕ, ◌<◌, length, get_or};
ghost use Rattle.words_known.specs.Known.{StateWords, SeatWords};

use words_layout::STATE_WORDS;

// The words of a state.
pub fn state(words: &[u16; STATE_WORDS])
    ensures { StateWords words.now }
{
    fit(words)
}

// Eight of them.
pub fn seats(seats: &[[u16; STATE_WORDS]; 8])
    ensures { SeatWords seats.now }
{
    eight(seats);
    for i in 0..8 {
        state(&seats[i]);
    }
}

// Each of a slice's words has 16 bits.
fn fit(words: &[u16])
    ensures { (i : ℕ) → get_or words.now i 0 < 65536 }
{
    nothing()
}

// A slice of seats, whose number a caller knows that lends them.
fn eight(seats: &[[u16; STATE_WORDS]]) {
    nothing()
}

fn nothing() {}
