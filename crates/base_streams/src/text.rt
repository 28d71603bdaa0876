// Numbers in base ten and single bytes, laid down in a lent slice of bytes from a place on; the place after them comes
// back. What has no room is left out, and a place past the slice stays.
ghost use Rattle.std.specs.Prelude.{◌≡◌, cond, ◌+◌, ◌/◌, ◌%◌, ◌<◌, leb, length, set};
ghost use Rattle.std.proofs.lemmas.List.Edits.{sets};
ghost use Rattle.base_streams.specs.Text.{decimal, place_after};

// One byte.
pub fn byte(x: u8, at: usize, out: &mut [u8]) -> usize
    ensures place { result ≡ place_after out.old at 1 }
    ensures bytes { out.new ≡ set out.old at x }
{
    if out.len() < at {
        return at;
    }
    base_slices::put_byte(out, at, x);
    at + 1
}

// A number, without zeros before it.
pub fn number(value: u32, at: usize, out: &mut [u8]) -> usize
    ensures place { result ≡ place_after out.old at (length (decimal value)) }
    ensures bytes { out.new ≡ sets out.old at (decimal value) }
{
    if out.len() < at {
        return at;
    }
    let mut power: u32 = 1000000000;
    let mut end = at;
    for i in 0..9u8 {
        end = digit(value, power, end, out);
        power /= 10;
    }
    base_slices::put_byte(out, end, (value % 10) as u8 + b'0');
    end + 1
}

// The digit at a power of ten, if the number has it.
fn digit(value: u32, power: u32, at: usize, out: &mut [u8]) -> usize
    requires { (0 < power) × (at < 9223372036854775900) }
    ensures place { result ≡ cond (leb power value) (at + 1) at }
    ensures bytes { out.new
        ≡ cond (leb power value) (set out.old at (value / power % 10 + 48)) out.old }
{
    if value < power {
        return at;
    }
    base_slices::put_byte(out, at, (value / power % 10) as u8 + b'0');
    at + 1
}
