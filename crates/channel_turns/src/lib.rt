// Whose turn it is among eight seats (T-12).
#![tactic(auto)]

ghost use Rattle.std.specs.Prelude.{◌≡◌, false, ℕ, get_or};
ghost use Rattle.spec_channel.specs.Turns.{picked};

// The seat last served.
#[repr(C)]
#[derive(Clone, Copy)]
pub struct Turn {
    pub last: u16,
}

impl Turn {
    // Before any tick: the search begins at seat 0, the next after 7.
    pub fn new() -> Turn
        ensures { result.last ≡ 7 }
    {
        Turn { last: 7 }
    }
}

// Of eight seats the next that waits after the one last served, going round; 8 where none waits.
pub fn pick(last: u16, waits: [bool; 8]) -> u16
    ensures { result ≡ picked last (λ (i : ℕ). get_or waits i false) }
{
    let from = last as usize + 1;
    for d in 0..8 {
        let seat = (from + d) % 8;
        if waits[seat] {
            return seat as u16;
        }
    }
    8
}
