// Surveys the table of each case of each stream named as an argument and adds up its parts from the library's answers
// (T-14). It prints the number of labels, each label with its part (units touched, less one), the sum, and the units
// less the groups. It prints `fault` for a malformed stream.
#![tactic(auto)]

use base_io::{FileVisitor, Line};
use base_streams::{CaseVisitor, Reader};
use std::io;
use survey::{Reply, Survey};

// What the library answers of unit `v`: its colour. The state ends here: a function that holds it is long to prove.
fn color_of(s: Survey, v: u16) -> u16 {
    let answer = value_calls::unit(s, v);
    match answer.reply {
        Reply::Unit { color, .. } => color,
        _ => 65535,
    }
}

// And of link `j`: its label.
fn label_of(s: Survey, j: u16) -> u16 {
    let answer = value_calls::link(s, j);
    match answer.reply {
        Reply::Link { label, .. } => label,
        _ => 65535,
    }
}

// The units that equal their colour: one a group.
fn groups(s: Survey, units: u16) -> usize {
    (0..units).filter(|v| color_of(s, *v) == *v).count()
}

// The units that the links with label `c` touch, less one.
fn part(words: &[u16], labels: &[u16], c: u16) -> usize {
    let mut touched = [false; 256];
    for (ends, label) in words.chunks_exact(2).zip(labels) {
        if *label == c {
            for end in ends {
                if let Some(unit) = touched.get_mut(*end as usize) {
                    *unit = true;
                }
            }
        }
    }
    touched
        .iter()
        .filter(|unit| **unit)
        .count()
        .saturating_sub(1)
}

// How many labels there are, then each, a position that is its own, and its part, then the sum.
fn print_parts(line: &mut Line<4096>, words: &[u16], labels: &[u16]) -> io::Result<()> {
    let count = labels
        .iter()
        .zip(0..1024)
        .filter(|(label, j)| **label == *j)
        .count();
    print!(line; "{count}")?;
    let mut sum = 0usize;
    for (label, j) in labels.iter().zip(0..1024) {
        if *label == j {
            let part = part(words, labels, j);
            print!(line; " {j} {part}")?;
            sum = sum.saturating_add(part);
        }
    }
    print!(line; " {sum}")
}

// The line of a finished survey of so many units and links.
fn told(rt: &impl Print, s: Survey, units: u16, words: &[u16], links: usize) -> io::Result<()> {
    let mut labels = [0u16; 1024];
    for (label, j) in labels.iter_mut().zip(0..1024).take(links) {
        *label = label_of(s, j);
    }
    let mut line = Line::new();
    print_parts(&mut line, words, labels.get(..links).unwrap_or(&[]))?;
    let others = (units as usize).saturating_sub(groups(s, units));
    println!(line; " {others}")?;
    line.send(rt)
}

// The survey of a table, no table where a list is missing.
fn loaded(units: u16, words: Option<&[u16]>, levels: Option<&[i16]>) -> Survey {
    let (Some(words), Some(levels)) = (words, levels) else {
        return Survey::new();
    };
    let answer = Survey::new().load(units, words, levels);
    answer.survey
}

// Made to its end.
fn ended(s: Survey) -> Survey {
    let ran = s.run(65535);
    ran.survey
}

// A case: the unit count, the list of words, the list of levels.
fn case(rt: &impl Print, reader: &mut Reader<'_>) -> io::Result<()> {
    let units = reader.word();
    let mut words_room = [0u16; 2048];
    let words = reader.words(&mut words_room);
    let mut levels_room = [0i16; 1024];
    let levels = reader.levels(&mut levels_room);
    // One call of `told`: where there are two, each of its questions copies the state three times.
    let survey = ended(loaded(units, words, levels));
    let links = levels.unwrap_or(&[]).len();
    told(rt, survey, units, words.unwrap_or(&[]), links)
}

// What is printed goes there.
#[derive(Drop)]
struct Check<'a, R> {
    rt: &'a R,
}

impl<R: Print> FileVisitor for Check<'_, R> {
    fn file(&mut self, _name: &str, stream: &[u8]) -> io::Result<()> {
        base_streams::each_case(self.rt, stream, self)
    }
}

impl<R: Print> CaseVisitor for Check<'_, R> {
    fn case(&mut self, reader: &mut Reader<'_>) -> io::Result<()> {
        case(self.rt, reader)
    }
}

fn main(rt: HostRuntime) -> io::Result<()> {
    base_io::each_file(&rt, base_io::arg_count(&rt), &mut Check { rt: &rt })
}
