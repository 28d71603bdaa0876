// Streams of numbers as tests read them: base ten, one space or one line feed after a number, `-` before one that is
// negative. A cursor goes by value through a lent slice of bytes. One that met a fault stays faulty and gives 0, so
// that a reader need ask only at the end.
#![tactic(auto)]

ghost use Rattle.std.specs.Prelude.{◌≡◌};
ghost use Rattle.base_streams.specs.Stream.{begun, ended_at, number_at, part_at, level_at};

mod digits;
pub mod listed;
mod reader;
pub mod series;
pub mod text;

pub use reader::{CaseVisitor, Reader, each_case};

// Where the next number begins, and whether a fault was met.
#[derive(Clone, Copy)]
pub struct Cursor {
    pub at: usize,
    pub fault: bool,
}

// A number, and the cursor after it.
#[derive(Clone, Copy)]
pub struct Number {
    pub value: u32,
    pub cursor: Cursor,
}

// A level, and the cursor after it.
#[derive(Clone, Copy)]
pub struct Level {
    pub value: i16,
    pub cursor: Cursor,
}

// The cursor at the beginning.
pub fn begin() -> Cursor
    ensures { result ≡ begun }
{
    Cursor {
        at: 0,
        fault: false,
    }
}

// Whether the stream was read to its end without a fault.
pub fn ended(stream: &[u8], cursor: Cursor) -> bool
    ensures { result ≡ ended_at stream.now cursor }
{
    !cursor.fault && stream.len() <= cursor.at
}

// The next number: below 1,000,000,000, and not negative.
pub fn next_number(stream: &[u8], cursor: Cursor) -> Number
    ensures { result ≡ number_at stream.now cursor }
{
    part(stream, cursor, cursor.at)
}

// The next level: from −32767 to 32767.
pub fn next_level(stream: &[u8], cursor: Cursor) -> Level
    ensures { result ≡ level_at stream.now cursor }
{
    let at = cursor.at;
    let negative = base_slices::byte(stream, at) == b'-';
    let number = part(stream, cursor, digits::start(stream, at));
    let after = number.cursor;
    let faulty = Level {
        value: 0,
        cursor: Cursor { at, fault: true },
    };
    if after.fault {
        return faulty;
    }
    if 32767 < number.value {
        return faulty;
    }
    Level {
        value: digits::signed(negative, number.value),
        cursor: after,
    }
}

// The number whose digits begin at `from`; at a fault the cursor stays.
fn part(stream: &[u8], cursor: Cursor, from: usize) -> Number
    ensures { result ≡ part_at stream.now cursor from }
{
    let at = cursor.at;
    let faulty = Number {
        value: 0,
        cursor: Cursor { at, fault: true },
    };
    if cursor.fault {
        return faulty;
    }
    let read = digits::read(stream, from);
    let end = read.end;
    if end <= from {
        return faulty;
    }
    if !digits::closed(stream, end) {
        return faulty;
    }
    Number {
        value: read.value,
        cursor: Cursor {
            at: digits::after(stream, end),
            fault: false,
        },
    }
}
