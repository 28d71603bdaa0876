// A frame's line, written over the front of a lent slice.
ghost use Rattle.std.specs.Prelude.{◌≡◌, ◌+◌, ◌*◌, ◌/◌, ◌%◌, ◌≤◌, [], ◌∷◌, ◌++◌, length, drop, slice_set};
ghost use Rattle.file_frames.specs.Frame.{digit_of, word_bytes, hexes_of, line_over};

use crate::{check, digits};

// The line feed that ends a line.
pub const LF: u8 = b'\n';

// The two characters of a byte, at `at`.
fn put_byte(out: &mut [u8], at: usize, b: u8)
    requires { at + 2 ≤ length out.old }
    ensures { out.new ≡ slice_set (slice_set out.old at (digit_of (b / 16))) (at + 1)
        (digit_of (b % 16)) }
{
    out[at] = digits::high_digit(b);
    out[at + 1] = digits::low_digit(b);
}

// The characters of all bytes, two a byte, at the front.
fn put_bytes(f: &[u8], out: &mut [u8])
    requires { 2 * length f.now ≤ length out.old }
    ensures { out.new ≡ hexes_of f.now
        ++ drop (2 * length f.now) out.old }
{
    for (i, b) in f.iter().enumerate() {
        put_byte(out, 2 * i, *b);
    }
}

// The line of the frame with this body; nothing where it does not fit.
pub fn write(body: &[u8], out: &mut [u8])
    ensures { out.new ≡ line_over body.now out.old }
{
    if out.len() < 3 || (out.len() - 3) / 2 < body.len() {
        return;
    }
    let at = 2 * body.len();
    put_bytes(body, out);
    put_byte(out, at, check::check_byte(body));
    out[at + 2] = LF;
}

// The line of a kind and one number.
pub fn one_number(kind: u8, w: u16, out: &mut [u8])
    ensures { out.new ≡ line_over (kind ∷ word_bytes w) out.old }
{
    let [high, low] = w.to_be_bytes();
    write(&[kind, high, low], out);
}

// The line of a kind and two numbers.
pub fn two_numbers(kind: u8, x: u16, y: u16, out: &mut [u8])
    ensures { out.new ≡ line_over (kind ∷ word_bytes x ++ word_bytes y) out.old }
{
    let [x_high, x_low] = x.to_be_bytes();
    let [y_high, y_low] = y.to_be_bytes();
    write(&[kind, x_high, x_low, y_high, y_low], out);
}

// The line of a kind, two numbers and a byte.
pub fn two_numbers_and_byte(kind: u8, x: u16, y: u16, b: u8, out: &mut [u8])
    ensures { out.new ≡ line_over (kind ∷ word_bytes x ++ word_bytes y ++ b ∷ []) out.old }
{
    let [x_high, x_low] = x.to_be_bytes();
    let [y_high, y_low] = y.to_be_bytes();
    write(&[kind, x_high, x_low, y_high, y_low, b], out);
}
