// Characters as digits, by a table that is made once and lent.
ghost use Rattle.std.specs.Prelude.{◌≡◌, ◌+◌, ◌*◌, ◌%◌, ◌<◌, ◌&&◌, length, ◌==◌};
ghost use Rattle.file_frames.specs.Frame.{digit_value, byte_of, byte_at, word_at, all_digits, bytes_of, sum_of};
ghost use Rattle.file_read.specs.Marks.{Marks};

use file_frames::digits;

// The mark of a character that is no digit: a bit that no digit has.
const NO_DIGIT: u8 = 16;

// The marks of all characters.
pub(crate) fn made() -> [u8; 256]
    ensures { Marks result }
{
    let mut t = [NO_DIGIT; 256];
    let mut d = 0;
    while d < 16 {
        let at = digits::low_digit(d) as usize;
        t[at] = d;
        d += 1;
    }
    t
}

// A character's mark.
fn mark(t: &[u8], c: u8) -> u8
    requires { Marks t.now }
    ensures { result ≡ digit_value c }
{
    t[c as usize]
}

// The byte of two marks.
fn byte_of(high: u8, low: u8) -> u8
    ensures { result ≡ (16 * high + low) % 256 }
{
    ((16 * (high as u16) + low as u16) % 256) as u8
}

// The byte of two characters.
pub(crate) fn byte(t: &[u8], c: u8, d: u8) -> u8
    requires { Marks t.now }
    ensures { result ≡ byte_of c d }
{
    byte_of(mark(t, c), mark(t, d))
}

// Whether all characters are digits, and their bytes sum to 0 in eight bits.
#[tactic(auto, using(crate::proofs::Ended::ended))]
pub(crate) fn sums_to_0(t: &[u8], s: &[u8]) -> bool
    requires { Marks t.now × (length s.now % 2 ≡ 0) }
    ensures { result ≡ (all_digits s.now && sum_of (bytes_of s.now) % 256 == 0) }
{
    let mut sum: u8 = 0;
    let mut seen: u8 = 0;
    let mut i = 0;
    while i + 1 < s.len() {
        let high = mark(t, s[i]);
        let low = mark(t, s[i + 1]);
        seen = seen | high | low;
        sum = std::num::wrapping_add_u8(sum, byte_of(high, low));
        i += 2;
    }
    if NO_DIGIT <= seen {
        return false;
    }
    sum == 0
}

// The byte in the characters `i` and `i + 1`.
pub(crate) fn byte_at(t: &[u8], s: &[u8], i: usize) -> u8
    requires { Marks t.now × (i + 1 < length s.now) }
    ensures { result ≡ byte_at s.now i }
{
    byte(t, s[i], s[i + 1])
}

// The number in the four characters from `i` on.
pub(crate) fn word_at(t: &[u8], s: &[u8], i: usize) -> u16
    requires { Marks t.now × (i + 3 < length s.now) }
    ensures { result ≡ word_at s.now i }
{
    let high = byte(t, s[i], s[i + 1]);
    let low = byte(t, s[i + 2], s[i + 3]);
    256 * (high as u16) + low as u16
}
