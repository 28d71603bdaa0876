// Surveys the tables of each stream with the library and again by removal, and compares: all tables of one to five
// units, then tables of every shape. Arguments come in pairs, a file and a name; for each it prints a line with the
// counts and the name. It prints `fault` for a malformed stream.
#![tactic(auto)]

mod compare;
mod counts;
mod groups;
mod removal;

ghost use Rattle.std.specs.Prelude.{◌≡◌, length};

use base_streams::{CaseVisitor, Reader};
use counts::Counts;
use std::io;
use std::rt::{Env, Files};

// How many pairs of arguments are looked for.
const KINDS: usize = 25;

// A table: the unit count, the list of links, each one word. Of their number the low 16 bits count.
fn case(rt: &impl Print, reader: &mut Reader<'_>, counts: &mut Counts) -> io::Result<()> {
    let units = reader.word();
    let mut pairs = [0u16; 1024];
    let list = base_streams::listed::words(reader.stream, reader.cursor, &mut pairs);
    reader.cursor = list.cursor;
    let links = &pairs[..list.count.min(1024)];
    compare::table(rt, units, (list.count % 65536) as u16, links, counts)
}

// What the tables of a stream come to. Where surveys differ a table is printed there.
#[derive(Drop)]
struct Check<'a, R> {
    rt: &'a R,
    counts: Counts,
}

impl<R: Print> CaseVisitor for Check<'_, R> {
    fn case(&mut self, reader: &mut Reader<'_>) -> io::Result<()> {
        case(self.rt, reader, &mut self.counts)
    }
}

// Room for a stream.
fn room() -> [u8; 131072]
    ensures { 131072 ≡ length result }
{
    [0; 131072]
}

// What the tables of a file came to, on a line with a name. Both are arguments, by their numbers.
fn line(rt: &(impl Env + Eprint + Files + Print), file: usize, name: usize) -> io::Result<Counts> {
    let mut check = Check {
        rt,
        counts: Counts::new(),
    };
    let mut text = base_io::buffer();
    let path = base_io::arg(rt, file, &mut text);
    if let Some(stream) = base_io::read_file(rt, &text[..path], &mut room())? {
        base_streams::each_case(rt, stream, &mut check)?;
    }
    let counts = check.counts;
    let called = base_io::arg(rt, name, &mut text);
    print!(rt; "{counts} ")?;
    base_io::write_all(rt, &text[..called])?;
    println!(rt; "")?;
    Ok(counts)
}

fn main(rt: HostRuntime) -> io::Result<()> {
    println!(rt; "tables, units, links, single points, lone links, labels, differences:")?;
    let mut totals = Counts::new();
    for kind in 0..KINDS {
        totals.add(&line(&rt, 2 * kind + 1, 2 * kind + 2)?);
    }
    println!(rt; "{totals} in all")
}
