// The check byte: the last byte of a frame makes the sum of all wrap to 0.
ghost use Rattle.std.specs.Prelude.{◌≡◌, ◌%◌};
ghost use Rattle.file_frames.specs.Frame.{sum_of, check_byte};

// The sum of all bytes, in eight bits.
pub fn sum(f: &[u8]) -> u8
    ensures { result ≡ sum_of f.now % 256 }
{
    let mut sum: u8 = 0;
    for b in f {
        sum = sum.wrapping_add(*b);
    }
    sum
}

// The byte that brings the sum to 0.
pub fn check_byte(f: &[u8]) -> u8
    ensures { result ≡ check_byte f.now }
{
    0u8.wrapping_sub(sum(f))
}
