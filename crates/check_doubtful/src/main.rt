// Asks about doubtful links (T-08). For each case of each stream named as an argument it prints a line with a number
// for each question: 2 always, 1 perhaps, 0 never, or a refusal. It prints `fault` for a malformed stream.
#![tactic(auto)]

use base_streams::{Cursor, listed, text};
use std::io;
use std::rt::{Env, Files};
use survey::Survey;
use value_doubtful::Verdict;

// A survey, and the cursor after its table and its budget.
#[derive(Drop)]
struct Site {
    survey: Survey,
    cursor: Cursor,
}

// What is printed for a question, and the cursor after it.
#[derive(Clone, Copy)]
struct Said {
    number: u32,
    cursor: Cursor,
}

fn say(rt: &impl Print, line: &[u8], end: usize) -> io::Result<()> {
    if line.len() < end {
        return Ok(());
    }
    base_io::write_all(rt, &line[..end])
}

// The number to be printed for a reply.
fn told(reply: Verdict) -> u32 {
    match reply {
        Verdict::Refused(number) => number as u32,
        Verdict::Always => 2,
        Verdict::Perhaps => 1,
        Verdict::Never => 0,
    }
}

// The call, with the first marks of the slice.
fn lend(survey: Survey, first: u16, second: u16, marks: &[u8], count: usize) -> u32 {
    if marks.len() < count {
        return 97;
    }
    let answer = value_doubtful::doubt(survey, first, second, &marks[..count]);
    let reply = answer.reply;
    told(reply)
}

// The survey of the table that the first words and levels of the two slices hold.
fn loaded<'a>(
    units: u16,
    words: &'a [u16],
    count: usize,
    levels: &'a [i16],
    links: usize,
) -> Survey {
    if words.len() < count {
        return Survey::new();
    }
    if levels.len() < links {
        return Survey::new();
    }
    let answer = Survey::new().load_stored(units, &words[..count], &levels[..links]);
    answer.survey
}

// After at most `budget` rounds.
fn run(survey: Survey, budget: u16) -> Survey {
    if budget == 0 {
        return survey;
    }
    let answer = survey.run(budget);
    answer.survey
}

// A number, after a space where it is not the first.
fn put_number(i: u32, number: u32, at: usize, line: &mut [u8]) -> usize {
    if i == 0 {
        return text::number(number, at, line);
    }
    let after = text::byte(32, at, line);
    text::number(number, after, line)
}

// A question: the first position, the second.
fn question<'a>(
    stream: &'a [u8],
    cursor: Cursor,
    survey: Survey,
    marks: &'a [u8],
    marked: usize,
) -> Said {
    let first = base_streams::next_number(stream, cursor);
    let second = base_streams::next_number(stream, first.cursor);
    let number = lend(
        survey,
        (first.value % 65536) as u16,
        (second.value % 65536) as u16,
        marks,
        marked,
    );
    let cursor = second.cursor;
    Said { number, cursor }
}

// The line of all questions.
fn questions<'a>(
    rt: &impl Print,
    stream: &'a [u8],
    cursor: Cursor,
    count: u32,
    survey: Survey,
    marks: &'a [u8],
    marked: usize,
    line: &mut [u8],
) -> io::Result<Cursor> {
    let mut end: usize = 0;
    let mut c = cursor;
    for i in 0..count {
        let said = question(stream, c, survey, marks, marked);
        end = put_number(i, said.number, end, line);
        let after = said.cursor;
        c = after;
    }
    end = text::byte(10, end, line);
    say(rt, line, end)?;
    Ok(c)
}

// The first part of a case: the unit count, the list of words, the list of levels, the budget.
fn survey_of(stream: &[u8], cursor: Cursor) -> Site {
    let units = base_streams::next_number(stream, cursor);
    let mut words = [0u16; 2048];
    let ends = listed::words(stream, units.cursor, &mut words);
    let mut levels = [0i16; 1024];
    let heard = listed::levels(stream, ends.cursor, &mut levels);
    let budget = base_streams::next_number(stream, heard.cursor);
    let first = loaded(
        (units.value % 65536) as u16,
        &words,
        ends.count,
        &levels,
        heard.count,
    );
    let survey = run(first, (budget.value % 65536) as u16);
    let cursor = budget.cursor;
    Site { survey, cursor }
}

// Each word's low eight bits.
fn low_bytes(words: &[u16], bytes: &mut [u8]) {
    for i in 0..words.len() {
        base_slices::put_byte(bytes, i, (words[i] % 256) as u8);
    }
}

// A case: the survey, the list of marks, the questions.
fn case(rt: &impl Print, stream: &[u8], cursor: Cursor) -> io::Result<Cursor> {
    let site = survey_of(stream, cursor);
    let mut words = [0u16; 2048];
    let marked = listed::words(stream, site.cursor, &mut words);
    let mut marks = [0u8; 2048];
    low_bytes(&words, &mut marks);
    let total = base_streams::next_number(stream, marked.cursor);
    let mut line = base_io::buffer();
    questions(
        rt,
        stream,
        total.cursor,
        total.value,
        site.survey,
        &marks,
        marked.count,
        &mut line,
    )
}

// Every case of a stream, which begins with how many there are.
fn cases(rt: &impl Print, stream: &[u8]) -> io::Result<()> {
    let count = base_streams::next_number(stream, base_streams::begin());
    let total = count.value;
    let first = count.cursor;
    let mut c = first;
    for _ in 0..total {
        c = case(rt, stream, c)?;
    }
    if !base_streams::ended(stream, c) {
        base_io::write_all(rt, b"fault\n")?;
    }
    Ok(())
}

// The file of argument `i`.
fn one(rt: &(impl Env + Eprint + Files + Print), i: usize) -> io::Result<()> {
    let mut name = base_io::buffer();
    let length = base_io::arg(rt, i, &mut name);
    let mut file = match base_io::open_read(rt, &name[..length]) {
        Ok(file) => file,
        Err(error) => return base_io::fail(rt, &name[..length], &error),
    };
    let mut input = base_io::large_buffer();
    let got = base_io::read_full(&mut file, &mut input)?;
    cases(rt, &input[..got])
}

fn main(rt: HostRuntime) -> io::Result<()> {
    let count = base_io::arg_count(&rt);
    for i in 1..count {
        one(&rt, i)?;
    }
    Ok(())
}
