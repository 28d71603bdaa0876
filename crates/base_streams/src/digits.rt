// The digits of a number.
ghost use Rattle.std.specs.Prelude.{◌≡◌, ◌+◌, ◌*◌, ◌-◌, ◌≤◌, ◌<◌, drop};
ghost use Rattle.base_streams.specs.Stream.{goes, value_of, width, closed, after, start, signed};

// A value, and where its digits end.
#[derive(Drop)]
pub(crate) struct Digits {
    pub value: u32,
    pub end: usize,
}

// Whether a byte is one digit more of a number that is not too great.
fn goes(value: u32, byte: u8) -> bool
    ensures { result ≡ goes value byte }
{
    matches!(byte, b'0'..=b'9') && value < 100000000
}

// The number with a digit more.
fn more(value: u32, byte: u8) -> u32
    requires { (value < 100000000) × (48 ≤ byte) }
    ensures { result ≡ 10 * value + (byte - 48) }
{
    10 * value + u32::from(byte - b'0')
}

// The value of the digits from `at` on, and where they end.
pub(crate) fn read(stream: &[u8], at: usize) -> Digits
    ensures { (result.value ≡ value_of 0 (drop at stream.now))
        × (result.end ≡ at + width 0 (drop at stream.now)) }
{
    let mut value: u32 = 0;
    let mut end = at;
    while goes(value, base_slices::byte(stream, end)) {
        value = more(value, base_slices::byte(stream, end));
        end += 1;
    }
    Digits { value, end }
}

// Whether a number may end here: at the stream's end, a space or a line feed.
pub(crate) fn closed(stream: &[u8], end: usize) -> bool
    ensures { result ≡ closed stream.now end }
{
    stream.len() <= end || matches!(base_slices::byte(stream, end), b' ' | b'\n')
}

// Past the space or the line feed.
pub(crate) fn after(stream: &[u8], end: usize) -> usize
    ensures { result ≡ after stream.now end }
{
    if end < stream.len() { end + 1 } else { end }
}

// Past a `-`.
pub(crate) fn start(stream: &[u8], at: usize) -> usize
    ensures { result ≡ start stream.now at }
{
    match stream.get(at) {
        Some(b'-') => at + 1,
        _ => at,
    }
}

// The value with its sign.
pub(crate) fn signed(negative: bool, value: u32) -> i16
    requires { value ≤ 32767 }
    ensures { result ≡ signed negative value }
{
    let v = value as i16;
    if negative { -v } else { v }
}
