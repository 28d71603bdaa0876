// Loads or writes the table of each case of each stream named as an argument. It prints a line with the number of a
// refusal, or with 0 and the countdown after the load or the length of the file, and a `!` for each byte past the file
// that was altered. It prints `fault` for a malformed stream.
#![tactic(auto)]

use base_io::{FileVisitor, Line};
use base_streams::{CaseVisitor, Reader};
use file_spec::Writing;
use std::io;
use survey::{Answer, Reply, Survey};

// What every lent byte holds before the call; no file has it.
const MARK: u8 = 171;

// What a case asks for.
#[derive(Clone, Copy)]
enum Call {
    Load,
    LoadPlanned,
    LoadStored,
    Write,
}

impl From<u32> for Call {
    fn from(number: u32) -> Call {
        match number {
            2 => Call::LoadPlanned,
            3 => Call::LoadStored,
            4 => Call::Write,
            _ => Call::Load,
        }
    }
}

#[derive(Drop)]
struct Tables<'a> {
    units: u16,
    words: &'a [u16],
    levels: &'a [i16],
    parents: &'a [u16],
}

// A `!` for each byte that is not as it was, and the line's end.
fn print_altered(line: &mut Line<4096>, bytes: &[u8]) -> io::Result<()> {
    for byte in bytes {
        if *byte != MARK {
            print!(line; "!")?;
        }
    }
    println!(line; "")
}

// The countdown of a survey.
fn print_countdown(rt: &impl Print, survey: Survey) -> io::Result<()> {
    let answer = survey.status();
    let number = answer.number();
    match answer.reply {
        Reply::Status { countdown, .. } => println!(rt; "0 {countdown}"),
        _ => println!(rt; "{number}"),
    }
}

// Not inlined, or the blank state is made before a write too.
#[inline(never)]
fn print_load(rt: &impl Print, call: Call, t: &Tables<'_>) -> io::Result<()> {
    let answer = loaded(call, t);
    let number = answer.number();
    if number == 0 {
        print_countdown(rt, answer.survey)
    } else {
        println!(rt; "{number}")
    }
}

// Not inlined, or its line is made before any other call too.
#[inline(never)]
fn write(rt: &impl Print, t: &Tables<'_>, out: &mut [u8]) -> io::Result<()> {
    let mut line = Line::new();
    match file_write::write(t.units, t.words, t.levels, out) {
        Writing::Refused(number) => {
            print!(line; "{number}")?;
            print_altered(&mut line, out)?;
        }
        Writing::Written(characters) => {
            print!(line; "0 {characters}")?;
            print_altered(&mut line, out.get(characters as usize..).unwrap_or(&[]))?;
        }
    }
    line.send(rt)
}

fn loaded(call: Call, t: &Tables<'_>) -> Answer {
    let empty = Survey::new();
    match call {
        Call::LoadPlanned => empty.load_planned(t.units, t.words, t.levels, t.parents),
        Call::LoadStored => empty.load_stored(t.units, t.words, t.levels),
        _ => empty.load(t.units, t.words, t.levels),
    }
}

// The call; a file goes into the first places of a slice.
fn called(rt: &impl Print, call: Call, t: &Tables<'_>, places: usize) -> io::Result<()> {
    match call {
        // Asked first, or the places are laid out for nothing.
        Call::Write if 16384 < places => Ok(()),
        Call::Write => match [MARK; 16384].get_mut(..places) {
            Some(out) => write(rt, t, out),
            None => Ok(()),
        },
        _ => print_load(rt, call, t),
    }
}

// A case: the call, the unit count, the list of words, the list of levels, the list of parents, the places of the
// slice.
fn case(rt: &impl Print, reader: &mut Reader<'_>) -> io::Result<()> {
    let call = Call::from(reader.number());
    let units = reader.word();
    let mut words_room = [0u16; 4096];
    let words = reader.words(&mut words_room);
    let mut levels_room = [0i16; 2048];
    let levels = reader.any_levels(&mut levels_room);
    let mut parents_room = [0u16; 2048];
    let parents = reader.words(&mut parents_room);
    let places = reader.number() as usize;
    let (Some(words), Some(levels), Some(parents)) = (words, levels, parents) else {
        return Ok(());
    };
    let t = Tables {
        units,
        words,
        levels,
        parents,
    };
    called(rt, call, &t, places)
}

// What is printed goes there.
#[derive(Drop)]
struct Check<'a, R> {
    rt: &'a R,
}

impl<R: Print> FileVisitor for Check<'_, R> {
    fn file(&mut self, _name: &str, stream: &[u8]) -> io::Result<()> {
        base_streams::each_case(self.rt, stream, self)
    }
}

impl<R: Print> CaseVisitor for Check<'_, R> {
    fn case(&mut self, reader: &mut Reader<'_>) -> io::Result<()> {
        case(self.rt, reader)
    }
}

fn main(rt: HostRuntime) -> io::Result<()> {
    base_io::each_file(&rt, base_io::arg_count(&rt), &mut Check { rt: &rt })
}
