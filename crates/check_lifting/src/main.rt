// Asks for lifting orders (T-07). For each case of each stream named as an argument it prints a line with the number of
// a refusal, or with 0 and the order, and a `!` for each word past the order that was altered. It prints `fault` for a
// malformed stream.
#![tactic(auto)]

use base_streams::{Cursor, listed, text};
use std::io;
use std::rt::{Env, Files};
use survey::Survey;
use value_lifting::Lifting;

// What every lent word holds before the call.
const MARK: u16 = 43981;

// A survey, and the cursor after its table and its budget.
#[derive(Drop)]
struct Site {
    survey: Survey,
    cursor: Cursor,
}

// A number after a space.
fn more(n: u16, at: usize, line: &mut [u8]) -> usize {
    let after = text::byte(32, at, line);
    text::number(n as u32, after, line)
}

// A `!` for a word that is not as it was.
fn checked(word: u16, at: usize, line: &mut [u8]) -> usize {
    if word == MARK {
        return at;
    }
    text::byte(33, at, line)
}

// The first words of a slice, and a `!` for each of the others that is not as it was.
fn row(first: usize, words: &[u16], at: usize, line: &mut [u8]) -> usize {
    let mut end = at;
    for i in 0..words.len() {
        if i < first {
            end = more(words[i], end, line);
        } else {
            end = checked(words[i], end, line);
        }
    }
    text::byte(10, end, line)
}

fn say(rt: &impl Print, line: &[u8], end: usize) -> io::Result<()> {
    if line.len() < end {
        return Ok(());
    }
    base_io::write_all(rt, &line[..end])
}

// The line of a reply.
fn told(rt: &impl Print, reply: Lifting, order: &[u16]) -> io::Result<()> {
    let mut line = base_io::buffer();
    match reply {
        Lifting::Lifted(units) => {
            let at = text::number(0, 0, &mut line);
            let end = row(units as usize, order, at, &mut line);
            say(rt, &line, end)
        }
        Lifting::Refused(number) => {
            let at = text::number(number as u32, 0, &mut line);
            let end = row(0, order, at, &mut line);
            say(rt, &line, end)
        }
    }
}

fn asked<'a>(
    rt: &impl Print,
    survey: Survey,
    pairs: &'a [u16],
    order: &mut [u16],
) -> io::Result<()> {
    let answer = value_lifting::lift(survey, pairs, order);
    let reply = answer.reply;
    told(rt, reply, order)
}

// The call, with the first words of the pairs and the first places of the output.
fn lend(
    rt: &impl Print,
    survey: Survey,
    pairs: &[u16],
    count: usize,
    places: usize,
) -> io::Result<()> {
    if pairs.len() < count {
        return Ok(());
    }
    if 512 < places {
        return Ok(());
    }
    let mut order = [MARK; 512];
    asked(rt, survey, &pairs[..count], &mut order[..places])
}

// The survey of the table that the first words and levels of the two slices hold.
fn loaded<'a>(
    units: u16,
    words: &'a [u16],
    count: usize,
    levels: &'a [i16],
    links: usize,
) -> Survey {
    if words.len() < count {
        return Survey::new();
    }
    if levels.len() < links {
        return Survey::new();
    }
    let answer = Survey::new().load(units, &words[..count], &levels[..links]);
    answer.survey
}

// After at most `budget` rounds.
fn run(survey: Survey, budget: u16) -> Survey {
    if budget == 0 {
        return survey;
    }
    let answer = survey.run(budget);
    answer.survey
}

// The first part of a case: the unit count, the list of words, the list of levels, the budget.
fn survey_of(stream: &[u8], cursor: Cursor) -> Site {
    let units = base_streams::next_number(stream, cursor);
    let mut words = [0u16; 2048];
    let ends = listed::words(stream, units.cursor, &mut words);
    let mut levels = [0i16; 1024];
    let heard = listed::levels(stream, ends.cursor, &mut levels);
    let budget = base_streams::next_number(stream, heard.cursor);
    let first = loaded(
        (units.value % 65536) as u16,
        &words,
        ends.count,
        &levels,
        heard.count,
    );
    let survey = run(first, (budget.value % 65536) as u16);
    let cursor = budget.cursor;
    Site { survey, cursor }
}

// A case: the survey, the places of the slice, the list of the words of the pairs.
fn case(rt: &impl Print, stream: &[u8], cursor: Cursor) -> io::Result<Cursor> {
    let site = survey_of(stream, cursor);
    let places = base_streams::next_number(stream, site.cursor);
    let mut pairs = [0u16; 1024];
    let before = listed::words(stream, places.cursor, &mut pairs);
    lend(rt, site.survey, &pairs, before.count, places.value as usize)?;
    Ok(before.cursor)
}

// Every case of a stream, which begins with how many there are.
fn cases(rt: &impl Print, stream: &[u8]) -> io::Result<()> {
    let count = base_streams::next_number(stream, base_streams::begin());
    let total = count.value;
    let first = count.cursor;
    let mut c = first;
    for _ in 0..total {
        c = case(rt, stream, c)?;
    }
    if !base_streams::ended(stream, c) {
        base_io::write_all(rt, b"fault\n")?;
    }
    Ok(())
}

// The file of argument `i`.
fn one(rt: &(impl Env + Eprint + Files + Print), i: usize) -> io::Result<()> {
    let mut name = base_io::buffer();
    let length = base_io::arg(rt, i, &mut name);
    let mut file = match base_io::open_read(rt, &name[..length]) {
        Ok(file) => file,
        Err(error) => return base_io::fail(rt, &name[..length], &error),
    };
    let mut input = base_io::large_buffer();
    let got = base_io::read_full(&mut file, &mut input)?;
    cases(rt, &input[..got])
}

fn main(rt: HostRuntime) -> io::Result<()> {
    let count = base_io::arg_count(&rt);
    for i in 1..count {
        one(&rt, i)?;
    }
    Ok(())
}
