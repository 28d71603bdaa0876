// Asks for rings (T-04). For each case of each stream named as an argument it prints a line with a number for each
// question: 1 for a ring, 0 for no ring, or a refusal; 98 where what is shown is not a ring, lacks a link or starts
// with other units, 99 where a word was altered that should stay. It prints `fault` for a malformed stream.
#![tactic(auto)]

use base_io::{FileVisitor, Line};
use base_streams::{CaseVisitor, Reader};
use std::io;
use survey::Survey;
use value_ring::Shown;

mod judge;

// What every lent word holds before the call.
const MARK: u16 = 43981;

// The number to be printed for a reply.
fn told(reply: Shown, words: &[u16], first: u16, second: u16, out: &[u16]) -> u8 {
    let (number, count) = match reply {
        Shown::Refused(number) => (number, 0),
        Shown::NoRing => (0, 0),
        Shown::Ring(count) => {
            match out.get(..count as usize) {
                Some(ring) if judge::is_ring(words, first, second, ring) => (),
                _ => return 98,
            }
            (1, count as usize)
        }
    };
    if out.iter().skip(count).all(|word| *word == MARK) {
        number
    } else {
        99
    }
}

fn asked(survey: Survey, words: &[u16], first: u16, second: u16, out: &mut [u16]) -> u8 {
    let answer = value_ring::show(survey, first, second, out);
    told(answer.reply, words, first, second, out)
}

// A question: the first position, the second, the places of the slice.
fn question(reader: &mut Reader<'_>, survey: Survey, words: &[u16]) -> u8 {
    let first = reader.word();
    let second = reader.word();
    let places = reader.number() as usize;
    let mut out = [MARK; 512];
    match out.get_mut(..places) {
        Some(out) => asked(survey, words, first, second, out),
        None => 97,
    }
}

// The line of all questions.
fn questions(
    rt: &impl Print,
    reader: &mut Reader<'_>,
    survey: Survey,
    words: &[u16],
) -> io::Result<()> {
    let mut line = Line::<4096>::new();
    for i in 0..reader.number() {
        let number = question(reader, survey, words);
        if i != 0 {
            print!(line; " ")?;
        }
        print!(line; "{number}")?;
    }
    println!(line; "")?;
    line.send(rt)
}

// The survey of a table after at most `budget` rounds.
fn surveyed(units: u16, words: &[u16], levels: &[i16], budget: u16) -> Survey {
    let loaded = Survey::new().load_stored(units, words, levels);
    run(loaded.survey, budget)
}

fn run(survey: Survey, budget: u16) -> Survey {
    if budget == 0 {
        return survey;
    }
    let ran = survey.run(budget);
    ran.survey
}

// A case: the unit count, the list of words, the list of levels, the budget, the questions.
fn case(rt: &impl Print, reader: &mut Reader<'_>) -> io::Result<()> {
    let units = reader.word();
    let mut words_room = [0u16; 2048];
    let words = reader.words(&mut words_room);
    let mut levels_room = [0i16; 1024];
    let levels = reader.levels(&mut levels_room);
    let budget = reader.word();
    // One call of `questions`: where there are two, each question copies the state several times.
    let survey = match (words, levels) {
        (Some(words), Some(levels)) => surveyed(units, words, levels, budget),
        _ => Survey::new(),
    };
    questions(rt, reader, survey, words.unwrap_or(&[]))
}

// What is printed goes there.
#[derive(Drop)]
struct Check<'a, R> {
    rt: &'a R,
}

impl<R: Print> FileVisitor for Check<'_, R> {
    fn file(&mut self, _name: &str, stream: &[u8]) -> io::Result<()> {
        base_streams::each_case(self.rt, stream, self)
    }
}

impl<R: Print> CaseVisitor for Check<'_, R> {
    fn case(&mut self, reader: &mut Reader<'_>) -> io::Result<()> {
        case(self.rt, reader)
    }
}

fn main(rt: HostRuntime) -> io::Result<()> {
    base_io::each_file(&rt, base_io::arg_count(&rt), &mut Check { rt: &rt })
}
