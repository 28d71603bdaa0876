// Reads and stores that are right for every index: past the end a read gives 0 and a store does nothing (document 01: a
// value read at a missing place is 0). They leave no index for a caller to prove.
#![tactic(auto)]

ghost use Rattle.std.specs.Prelude.{◌≡◌, get_or, set};

// The word at `i`, 0 past the end.
pub fn word(t: &[u16], i: usize) -> u16
    ensures { result ≡ get_or t.now i 0 }
{
    if i < t.len() { t[i] } else { 0 }
}

// `x` at `i`; nothing past the end.
pub fn put(t: &mut [u16], i: usize, x: u16)
    ensures { t.new ≡ set t.old i x }
{
    if i < t.len() {
        t[i] = x;
    }
}

// The byte at `i`, 0 past the end.
pub fn byte(s: &[u8], i: usize) -> u8
    ensures { result ≡ get_or s.now i 0 }
{
    if i < s.len() { s[i] } else { 0 }
}

// `x` at `i`; nothing past the end.
pub fn put_byte(s: &mut [u8], i: usize, x: u8)
    ensures { s.new ≡ set s.old i x }
{
    if i < s.len() {
        s[i] = x;
    }
}
