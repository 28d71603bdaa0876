// Surveys the one-way links (T-11) of each case of each stream named as an argument. It prints a line with the number
// of a refusal, or with 0, the passes and each unit's number, and a `!` for each word past these that was altered. It
// prints `fault` for a malformed stream.
#![tactic(auto)]

use base_io::{FileVisitor, Line};
use base_streams::{CaseVisitor, Reader};
use one_way::Numbering;
use std::io;

// What every lent word holds before the call.
const MARK: u16 = 43981;

// The first words, as many as `count`, each after a space; a `!` for each of the others that was altered; the line's
// end.
fn row(line: &mut Line<4096>, words: &[u16], count: usize) -> io::Result<()> {
    for (i, word) in words.iter().enumerate() {
        if i < count {
            print!(line; " {word}")?;
        } else if *word != MARK {
            print!(line; "!")?;
        }
    }
    println!(line; "")
}

fn surveyed(rt: &impl Print, units: u16, links: &[u16], numbers: &mut [u16]) -> io::Result<()> {
    let mut line = Line::new();
    match one_way::strong(units, links, numbers) {
        Numbering::Passes(passes) => {
            print!(line; "0 {passes}")?;
            row(&mut line, numbers, units as usize)?;
        }
        Numbering::Refused(number) => {
            print!(line; "{number}")?;
            row(&mut line, numbers, 0)?;
        }
    }
    line.send(rt)
}

// A case: the unit count, the list of words, the places of the slice.
fn case(rt: &impl Print, reader: &mut Reader<'_>) -> io::Result<()> {
    let units = reader.word();
    let mut words = [0u16; 4096];
    let links = reader.words(&mut words);
    let places = reader.number() as usize;
    let mut numbers = [MARK; 512];
    match (links, numbers.get_mut(..places)) {
        (Some(links), Some(numbers)) => surveyed(rt, units, links, numbers),
        _ => Ok(()),
    }
}

// What is printed goes there.
#[derive(Drop)]
struct Check<'a, R> {
    rt: &'a R,
}

impl<R: Print> FileVisitor for Check<'_, R> {
    fn file(&mut self, _name: &str, stream: &[u8]) -> io::Result<()> {
        base_streams::each_case(self.rt, stream, self)
    }
}

impl<R: Print> CaseVisitor for Check<'_, R> {
    fn case(&mut self, reader: &mut Reader<'_>) -> io::Result<()> {
        case(self.rt, reader)
    }
}

fn main(rt: HostRuntime) -> io::Result<()> {
    base_io::each_file(&rt, base_io::arg_count(&rt), &mut Check { rt: &rt })
}
