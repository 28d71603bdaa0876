// The two characters of each byte, read from a table that is made once for many lines.
ghost use Rattle.std.specs.Prelude.{◌≡◌, ◌+◌, ◌-◌, ◌/◌, ◌%◌, ◌<◌, ◌≤◌, length, slice_set};
ghost use Rattle.file_frames.specs.Frame.{digit_of, LF};
ghost use Rattle.report_lines.specs.Pairs.{pair_of, pair_table, hex_at, word_hex_at};

use file_frames::line;

// The character of a digit, without a branch: six more carry a letter over 16.
fn digit(d: u16) -> u16
    requires { d < 16 }
    ensures { result ≡ digit_of d }
{
    b'0' as u16 + d + 7 * ((d + 6) / 16)
}

// The two characters of a byte in one word, the first in its low byte.
fn pair(b: u16) -> u16
    requires { b < 256 }
    ensures { result ≡ pair_of b }
{
    digit(b / 16) + 256 * digit(b % 16)
}

// The pairs of all bytes.
pub(crate) fn table() -> [u16; 256]
    ensures { result ≡ pair_table }
{
    let mut pairs = [0u16; 256];
    for b in 0..256u16 {
        pairs[b as usize] = pair(b);
    }
    pairs
}

// The characters of byte `b`, at `at`: two stores side by side, which the compiler joins.
pub(crate) fn put(pairs: &[u16], b: u8, at: usize, out: &mut [u8])
    requires { (pairs.now ≡ pair_table) × (at + 2 ≤ length out.old) }
    ensures { out.new ≡ hex_at at b out.old }
{
    let [first, second] = pairs[b as usize].to_le_bytes();
    out[at] = first;
    out[at + 1] = second;
}

// The characters of number `w`, at `at`.
pub(crate) fn put_word(pairs: &[u16], w: u16, at: usize, out: &mut [u8])
    requires { (pairs.now ≡ pair_table) × (at + 4 ≤ length out.old) }
    ensures { out.new ≡ word_hex_at at w out.old }
{
    let [high, low] = w.to_be_bytes();
    put(pairs, high, at, out);
    put(pairs, low, at + 2, out);
}

// The byte that brings a sum to 0, and the line feed, at `at`.
pub(crate) fn close(pairs: &[u16], sum: u8, at: usize, out: &mut [u8])
    requires { (pairs.now ≡ pair_table) × (at + 3 ≤ length out.old) }
    ensures { out.new ≡ slice_set (hex_at at ((256 - sum) % 256) out.old) (at + 2) LF }
{
    put(pairs, 0u8.wrapping_sub(sum), at, out);
    out[at + 2] = line::LF;
}
