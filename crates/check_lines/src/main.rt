// Surveys each case of each stream named as an argument, round by round, and prints both handsets' lines (T-06) after
// the load and after each round. It prints `altered` where a byte past a line was touched, or any byte of a slice that
// is one place too short, and `not refused` where such a slice is not refused with 14. It prints `fault` for a
// malformed stream.
#![tactic(auto)]

use base_streams::{Cursor, listed};
use std::io;
use std::rt::{Env, Files};
use survey::Survey;

// What every lent byte holds before a call.
const MARK: u8 = 171;

// Whether all bytes from a place on are as they were.
fn as_before(out: &[u8], first: usize) -> bool {
    let mut same = true;
    for i in first..out.len() {
        if out[i] != MARK {
            same = false;
        }
    }
    same
}

fn say(rt: &impl Print, line: &[u8], end: usize) -> io::Result<()> {
    if line.len() < end {
        return Ok(());
    }
    base_io::write_all(rt, &line[..end])
}

// The line at the front, by its number of characters, or the number of the refusal.
fn told(rt: &impl Print, number: u8, needed: usize, out: &[u8]) -> io::Result<()> {
    if number != 0 {
        base_io::print_decimal(rt, number as u64)?;
        return base_io::write_all(rt, b"\n");
    }
    say(rt, out, needed)?;
    if !as_before(out, needed) {
        base_io::write_all(rt, b"altered\n")?;
    }
    Ok(())
}

// A slice that was one place too short.
fn short(rt: &impl Print, number: u8, out: &[u8]) -> io::Result<()> {
    if number != 14 {
        base_io::write_all(rt, b"not refused\n")?;
    }
    if !as_before(out, 0) {
        base_io::write_all(rt, b"altered\n")?;
    }
    Ok(())
}

fn foreman(rt: &impl Print, s: Survey) -> io::Result<()> {
    let mut out = [MARK; 24];
    let shown = value_handsets::foreman_line(s, &mut out);
    told(rt, shown.number(), 11, &out)?;
    let mut few = [MARK; 10];
    let refused = value_handsets::foreman_line(s, &mut few);
    short(rt, refused.number(), &few)
}

fn service(rt: &impl Print, s: Survey) -> io::Result<()> {
    let mut out = [MARK; 24];
    let shown = value_handsets::service_line(s, &mut out);
    told(rt, shown.number(), 19, &out)?;
    let mut few = [MARK; 18];
    let refused = value_handsets::service_line(s, &mut few);
    short(rt, refused.number(), &few)
}

// All rounds, at most as many as any survey takes.
fn rounds(rt: &impl Print, first: Survey) -> io::Result<()> {
    let mut s = first;
    foreman(rt, s)?;
    service(rt, s)?;
    for _ in 0..805 {
        if s.clock.stage != 11 {
            let answer = s.round();
            let next = answer.survey;
            s = next;
            foreman(rt, s)?;
            service(rt, s)?;
        }
    }
    Ok(())
}

// The survey of the table that the first words and levels of the two slices hold.
fn loaded<'a>(
    units: u16,
    words: &'a [u16],
    count: usize,
    levels: &'a [i16],
    links: usize,
) -> Survey {
    if words.len() < count {
        return Survey::new();
    }
    if levels.len() < links {
        return Survey::new();
    }
    let answer = Survey::new().load(units, &words[..count], &levels[..links]);
    answer.survey
}

// The same with the first parents of a third slice (T-05).
fn planned<'a>(
    units: u16,
    words: &'a [u16],
    count: usize,
    levels: &'a [i16],
    links: usize,
    parents: &'a [u16],
    drawn: usize,
) -> Survey {
    if parents.len() < drawn {
        return Survey::new();
    }
    if words.len() < count {
        return Survey::new();
    }
    if levels.len() < links {
        return Survey::new();
    }
    let answer = Survey::new().load_planned(
        units,
        &words[..count],
        &levels[..links],
        &parents[..drawn],
    );
    answer.survey
}

// By the call of the case: 1 is a load, 2 the load with parents.
fn begun<'a>(
    call: u32,
    units: u16,
    words: &'a [u16],
    count: usize,
    levels: &'a [i16],
    links: usize,
    parents: &'a [u16],
    drawn: usize,
) -> Survey {
    if call == 2 {
        planned(units, words, count, levels, links, parents, drawn)
    } else {
        loaded(units, words, count, levels, links)
    }
}

// The rest of a case, after its levels: the list of parents. Then both lines after the load and after each round.
fn drawn<'a>(
    rt: &impl Print,
    stream: &'a [u8],
    cursor: Cursor,
    call: u32,
    units: u16,
    words: &'a [u16],
    count: usize,
    levels: &'a [i16],
    links: usize,
) -> io::Result<Cursor> {
    let mut parents = [0u16; 256];
    let named = listed::words(stream, cursor, &mut parents);
    let first = begun(
        call,
        units,
        words,
        count,
        levels,
        links,
        &parents,
        named.count,
    );
    rounds(rt, first)?;
    Ok(named.cursor)
}

// A case: the call, the unit count, the list of words, the list of levels, the list of parents.
fn case(rt: &impl Print, stream: &[u8], cursor: Cursor) -> io::Result<Cursor> {
    let call = base_streams::next_number(stream, cursor);
    let units = base_streams::next_number(stream, call.cursor);
    let mut words = [0u16; 2048];
    let ends = listed::words(stream, units.cursor, &mut words);
    let mut levels = [0i16; 1024];
    let heard = listed::levels(stream, ends.cursor, &mut levels);
    drawn(
        rt,
        stream,
        heard.cursor,
        call.value,
        (units.value % 65536) as u16,
        &words,
        ends.count,
        &levels,
        heard.count,
    )
}

// Every case of a stream, which begins with how many there are.
fn cases(rt: &impl Print, stream: &[u8]) -> io::Result<()> {
    let count = base_streams::next_number(stream, base_streams::begin());
    let total = count.value;
    let first = count.cursor;
    let mut c = first;
    for _ in 0..total {
        c = case(rt, stream, c)?;
    }
    if !base_streams::ended(stream, c) {
        base_io::write_all(rt, b"fault\n")?;
    }
    Ok(())
}

// The file of argument `i`.
fn one(rt: &(impl Env + Eprint + Files + Print), i: usize) -> io::Result<()> {
    let mut name = base_io::buffer();
    let length = base_io::arg(rt, i, &mut name);
    let mut file = match base_io::open_read(rt, &name[..length]) {
        Ok(file) => file,
        Err(error) => return base_io::fail(rt, &name[..length], &error),
    };
    let mut input = base_io::large_buffer();
    let got = base_io::read_full(&mut file, &mut input)?;
    cases(rt, &input[..got])
}

fn main(rt: HostRuntime) -> io::Result<()> {
    let count = base_io::arg_count(&rt);
    for i in 1..count {
        one(&rt, i)?;
    }
    Ok(())
}
