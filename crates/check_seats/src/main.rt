// Plays the loads and ticks (T-12) of each case of each stream named as an argument. It prints the number of each load;
// the number of each refused tick, or 0, the seat served and its status; and at the end of a case a line for each seat.
// It prints `fault` for a malformed stream.
#![tactic(auto)]

use base_streams::{Cursor, listed, text};
use std::io;
use std::rt::{Env, Files};
use words_layout::STATE_WORDS;

// Where a state has its stage (words_layout/specs/Layout.antt).
const STAGE: usize = 2050;

// The seat last served, and the cursor after a step.
#[derive(Clone, Copy)]
struct Reached {
    last: u16,
    cursor: Cursor,
}

// A number after a space.
fn more(n: u16, at: usize, line: &mut [u8]) -> usize {
    let after = text::byte(32, at, line);
    text::number(n as u32, after, line)
}

fn say(rt: &impl Print, line: &[u8], end: usize) -> io::Result<()> {
    if line.len() < end {
        return Ok(());
    }
    base_io::write_all(rt, &line[..end])
}

// A line of one number.
fn told(rt: &impl Print, number: u32) -> io::Result<()> {
    let mut line = base_io::buffer();
    let at = text::number(number, 0, &mut line);
    let end = text::byte(10, at, &mut line);
    say(rt, &line, end)
}

// The status of a survey after what stands in the line; nothing where it is refused.
fn status(seat: &[u16; STATE_WORDS], at: usize, line: &mut [u8]) -> usize {
    let mut reply = [0u16; 4];
    if words_calls::status(seat, &mut reply) != 0 {
        return at;
    }
    let stage = more(reply[0], at, line);
    let countdown = more(reply[1], stage, line);
    let rounds = more(reply[2], countdown, line);
    more(reply[3], rounds, line)
}

// A seat as it is at the end: 0 where nothing was loaded, else 1 and its status.
fn seen(rt: &impl Print, seat: &[u16; STATE_WORDS]) -> io::Result<()> {
    if seat[0] == 0 && seat[STAGE] == 0 {
        return told(rt, 0);
    }
    let mut line = base_io::buffer();
    let at = text::number(1, 0, &mut line);
    let after = status(seat, at, &mut line);
    let end = text::byte(10, after, &mut line);
    say(rt, &line, end)
}

fn all_seen(rt: &impl Print, seats: &[[u16; STATE_WORDS]; 8]) -> io::Result<()> {
    for i in 0..8 {
        seen(rt, &seats[i])?;
    }
    Ok(())
}

// The line of a tick that served a seat.
fn served(rt: &impl Print, seats: &[[u16; STATE_WORDS]; 8], seat: u16) -> io::Result<()> {
    if 7 < seat {
        return Ok(());
    }
    let mut line = base_io::buffer();
    let at = text::number(0, 0, &mut line);
    let number = more(seat, at, &mut line);
    let after = status(&seats[seat as usize], number, &mut line);
    let end = text::byte(10, after, &mut line);
    say(rt, &line, end)
}

// A tick, and the seat last served after it.
fn tick(rt: &impl Print, last: u16, seats: &mut [[u16; STATE_WORDS]; 8]) -> io::Result<u16> {
    let reply = words_seats::serve(last, seats);
    if reply.number != 0 {
        told(rt, reply.number)?;
        return Ok(reply.last);
    }
    served(rt, seats, reply.last)?;
    Ok(reply.last)
}

// A load of a seat, with the first words and levels of the two slices.
fn load<'a>(
    seats: &mut [[u16; STATE_WORDS]; 8],
    seat: u16,
    units: u16,
    words: &'a [u16],
    count: usize,
    levels: &'a [i16],
    links: usize,
) -> u32 {
    if words.len() < count {
        return 99;
    }
    if levels.len() < links {
        return 99;
    }
    words_seats::load(seats, seat, units, &words[..count], &levels[..links])
}

// The rest of a load: the seat, the unit count, the list of words, the list of levels.
fn load_step(
    rt: &impl Print,
    stream: &[u8],
    cursor: Cursor,
    seats: &mut [[u16; STATE_WORDS]; 8],
) -> io::Result<Cursor> {
    let seat = base_streams::next_number(stream, cursor);
    let units = base_streams::next_number(stream, seat.cursor);
    let mut words = [0u16; 2100];
    let ends = listed::words(stream, units.cursor, &mut words);
    let mut levels = [0i16; 1100];
    let heard = listed::levels(stream, ends.cursor, &mut levels);
    let number = load(
        seats,
        (seat.value % 65536) as u16,
        (units.value % 65536) as u16,
        &words,
        ends.count,
        &levels,
        heard.count,
    );
    told(rt, number)?;
    Ok(heard.cursor)
}

fn put_stage(seat: &mut [u16; STATE_WORDS], stage: u16) {
    seat[STAGE] = stage;
}

// The stage of a seat's survey overwritten.
fn spoil(stream: &[u8], cursor: Cursor, seats: &mut [[u16; STATE_WORDS]; 8]) -> Cursor {
    let seat = base_streams::next_number(stream, cursor);
    let stage = base_streams::next_number(stream, seat.cursor);
    let i = seat.value as usize;
    if i < 8 {
        put_stage(&mut seats[i], (stage.value % 65536) as u16);
    }
    stage.cursor
}

// A step of a case: 1 a load, 2 a tick, 3 the last-served number overwritten, 4 a stage overwritten.
fn step(
    rt: &impl Print,
    stream: &[u8],
    from: Reached,
    seats: &mut [[u16; STATE_WORDS]; 8],
) -> io::Result<Reached> {
    let last = from.last;
    let kind = base_streams::next_number(stream, from.cursor);
    if kind.value == 1 {
        let cursor = load_step(rt, stream, kind.cursor, seats)?;
        return Ok(Reached { last, cursor });
    }
    if kind.value == 2 {
        let after = tick(rt, last, seats)?;
        let cursor = kind.cursor;
        return Ok(Reached {
            last: after,
            cursor,
        });
    }
    if kind.value == 3 {
        let value = base_streams::next_number(stream, kind.cursor);
        let cursor = value.cursor;
        return Ok(Reached {
            last: (value.value % 65536) as u16,
            cursor,
        });
    }
    let cursor = spoil(stream, kind.cursor, seats);
    Ok(Reached { last, cursor })
}

// The steps of a case.
fn steps(
    rt: &impl Print,
    stream: &[u8],
    first: Reached,
    count: u32,
    seats: &mut [[u16; STATE_WORDS]; 8],
) -> io::Result<Cursor> {
    let mut s = first;
    for _ in 0..count {
        s = step(rt, stream, s, seats)?;
    }
    Ok(s.cursor)
}

// A case, from eight empty seats: the number of its steps, then each.
fn case(rt: &impl Print, stream: &[u8], cursor: Cursor) -> io::Result<Cursor> {
    let count = base_streams::next_number(stream, cursor);
    let mut seats = [[0u16; STATE_WORDS]; 8];
    let turn = words_seats::Turn::new();
    let last = turn.last;
    let cursor = count.cursor;
    let first = Reached { last, cursor };
    let after = steps(rt, stream, first, count.value, &mut seats)?;
    all_seen(rt, &seats)?;
    Ok(after)
}

// Every case of a stream, which begins with how many there are.
fn cases(rt: &impl Print, stream: &[u8]) -> io::Result<()> {
    let count = base_streams::next_number(stream, base_streams::begin());
    let total = count.value;
    let first = count.cursor;
    let mut c = first;
    for _ in 0..total {
        c = case(rt, stream, c)?;
    }
    if !base_streams::ended(stream, c) {
        base_io::write_all(rt, b"fault\n")?;
    }
    Ok(())
}

// The file of argument `i`.
fn one(rt: &(impl Env + Eprint + Files + Print), i: usize) -> io::Result<()> {
    let mut name = base_io::buffer();
    let length = base_io::arg(rt, i, &mut name);
    let mut file = match base_io::open_read(rt, &name[..length]) {
        Ok(file) => file,
        Err(error) => return base_io::fail(rt, &name[..length], &error),
    };
    let mut input = base_io::large_buffer();
    let got = base_io::read_full(&mut file, &mut input)?;
    cases(rt, &input[..got])
}

fn main(rt: HostRuntime) -> io::Result<()> {
    let count = base_io::arg_count(&rt);
    for i in 1..count {
        one(&rt, i)?;
    }
    Ok(())
}
