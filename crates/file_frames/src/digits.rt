// Bytes and numbers as hexadecimal digits.
ghost use Rattle.std.specs.Prelude.{◌≡◌, ◌/◌, ◌%◌, ◌<◌};
ghost use Rattle.file_frames.specs.Frame.{digit_of};

// The character of a digit.
fn digit(d: u8) -> u8
    requires { d < 16 }
    ensures { result ≡ digit_of d }
{
    if d < 10 { b'0' + d } else { b'A' + d - 10 }
}

// The first of the two characters of a byte.
pub fn high_digit(b: u8) -> u8
    ensures { result ≡ digit_of (b / 16) }
{
    digit(b / 16)
}

// The second.
pub fn low_digit(b: u8) -> u8
    ensures { result ≡ digit_of (b % 16) }
{
    digit(b % 16)
}

// The high byte of a number.
pub fn high_byte(w: u16) -> u8
    ensures { result ≡ w / 256 % 256 }
{
    w.to_be_bytes()[0]
}

// The low byte.
pub fn low_byte(w: u16) -> u8
    ensures { result ≡ w % 256 }
{
    w.to_be_bytes()[1]
}
