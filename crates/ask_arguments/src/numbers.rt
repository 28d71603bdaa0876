// The digits of a number, and its sign.
ghost use Rattle.std.specs.Prelude.{◌≡◌, cond, ◌+◌, ◌*◌, ◌-◌, ◌≤◌, min};
ghost use Rattle.base_streams.specs.Stream.{signed};
ghost use Rattle.ask_arguments.specs.Arguments.{NONE, goes, value_in, number_in, size_in};

// The value with a digit more, if the byte is one and the value is still a number.
fn more(value: u32, byte: u8) -> u32
    requires { value ≤ 65535 }
    ensures { result ≡ cond (goes value byte) (10 * value + (byte - 48)) NONE }
{
    if !matches!(byte, b'0'..=b'9') {
        return super::NO_NUMBER;
    }
    let longer = 10 * value + u32::from(byte - b'0');
    if 65535 < longer {
        super::NO_NUMBER
    } else {
        longer
    }
}

// The value of digits.
fn value_in(word: &[u8]) -> u32
    ensures { result ≡ value_in 0 word.now }
{
    let mut value: u32 = 0;
    for byte in word {
        let longer = more(value, *byte);
        if 65535 < longer {
            return super::NO_NUMBER;
        }
        value = longer;
    }
    value
}

// The number that a word is.
pub(crate) fn number_in(word: &[u8]) -> u32
    ensures { result ≡ number_in word.now }
{
    if word.len() == 0 {
        return super::NO_NUMBER;
    }
    if 5 < word.len() {
        return super::NO_NUMBER;
    }
    value_in(word)
}

// The number after a `-`, or that of the whole word.
pub(crate) fn size_in(word: &[u8]) -> u32
    ensures { result ≡ size_in word.now }
{
    if base_slices::byte(word, 0) == b'-' {
        return number_in(&word[1..]);
    }
    number_in(word)
}

// The value as far as a level goes.
pub(crate) fn near(value: u32) -> u32
    ensures { (result ≡ min value 32767) × (result ≤ 32767) }
{
    value.min(32767)
}

// The value with its sign.
pub(crate) fn signed(negative: bool, value: u32) -> i16
    requires { value ≤ 32767 }
    ensures { result ≡ signed negative value }
{
    let v = value as i16;
    if negative { -v } else { v }
}
