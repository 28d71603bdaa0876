// Plays the steps of each case of each stream on a live table by value (T-09). Arguments come in pairs, what to print
// and a stream's name: `lines` prints a line for each step and the table at the end of a case, `numbers` the number of
// each step alone. A line has a `!` for each end past the links that is not absent and each level there that is not 0.
// It prints `fault` for a malformed stream.
#![tactic(auto)]

use base_io::Line;
use base_streams::{CaseVisitor, Reader, text};
use std::io;
use std::rt::Env;
use value_live::{Answer, Live};

// What is printed of each step.
#[derive(Clone, Copy, PartialEq)]
enum Told {
    Lines,
    Numbers,
}

// The number of an answer, 0 where it is no refusal. The table that it hands back is the one in hand.
fn taken(live: &mut Live, answer: Answer) -> u8 {
    *live = answer.live;
    answer.number
}

// The number, the number of links and the stored number of each unit.
fn print_counts(rt: &impl Print, number: u8, live: &Live) -> io::Result<()> {
    let links = live.links as usize;
    let mut line = Line::<65536>::new();
    print!(line; "{number} {links}")?;
    for v in 0..live.units as usize {
        match live.counts.get(v) {
            Some(count) => print!(line; " {count}")?,
            None => print!(line; " 0")?,
        }
    }
    for end in live.ends.iter().skip(2 * links) {
        if *end != 65535 {
            print!(line; "!")?;
        }
    }
    for level in live.levels.iter().skip(links) {
        if *level != 0 {
            print!(line; "!")?;
        }
    }
    println!(line; "")?;
    line.send(rt)
}

// A word after a space.
fn put_word(line: &mut Line<65536>, word: u16) {
    let at = text::byte(b' ', line.end, &mut line.bytes);
    line.end = text::number(word.into(), at, &mut line.bytes);
}

// A level after a space: its low byte as a number from −255 to 0.
fn put_level(line: &mut Line<65536>, level: i16) {
    let byte = table_levels::byte_of(level);
    if byte == 0 {
        put_word(line, 0);
    } else {
        let space = text::byte(b' ', line.end, &mut line.bytes);
        let minus = text::byte(b'-', space, &mut line.bytes);
        line.end = text::number(256 - u32::from(byte), minus, &mut line.bytes);
    }
}

// The unit count, the number of links, all words and all levels. What is there is laid down by `text`: by `print!` a
// table of 1,024 links took half as long again.
fn print_table(rt: &impl Print, live: &Live) -> io::Result<()> {
    let units = live.units;
    let links = live.links as usize;
    let mut line = Line::<65536>::new();
    print!(line; "{units} {links}")?;
    for i in 0..2 * links {
        match live.ends.get(i) {
            Some(end) => put_word(&mut line, *end),
            None => print!(line; " 0")?,
        }
    }
    for j in 0..links {
        match live.levels.get(j) {
            Some(level) => put_level(&mut line, *level),
            None => print!(line; " 0")?,
        }
    }
    println!(line; "")?;
    line.send(rt)
}

fn print_step(rt: &impl Print, told: Told, number: u8, live: &Live) -> io::Result<()> {
    match told {
        Told::Lines => print_counts(rt, number, live),
        Told::Numbers => println!(rt; "{number}"),
    }
}

// Opening: the unit count, the list of words, the list of levels. A refusal leaves the table in hand.
fn open(rt: &impl Print, reader: &mut Reader<'_>, live: &mut Live, told: Told) -> io::Result<()> {
    let units = reader.number();
    let mut words_room = [0u16; 4096];
    let words = reader.words(&mut words_room);
    let mut levels_room = [0i16; 2048];
    let levels = reader.any_levels(&mut levels_room);
    let answer = match (words, levels) {
        (Some(words), Some(levels)) => Live::opened((units % 65536) as u16, words, levels),
        _ => Live::opened(0, &[], &[]),
    };
    if answer.number != 0 {
        let number = answer.number;
        return println!(rt; "{number}");
    }
    let number = taken(live, answer);
    print_step(rt, told, number, live)
}

// Adding: the two units, the level.
fn add(rt: &impl Print, reader: &mut Reader<'_>, live: &mut Live, told: Told) -> io::Result<()> {
    let a = reader.word();
    let b = reader.word();
    let answer = live.add(a, b, reader.any_level());
    let number = taken(live, answer);
    print_step(rt, told, number, live)
}

// Withdrawing: the two units.
fn withdraw(
    rt: &impl Print,
    reader: &mut Reader<'_>,
    live: &mut Live,
    told: Told,
) -> io::Result<()> {
    let a = reader.word();
    let answer = live.withdraw(a, reader.word());
    let number = taken(live, answer);
    print_step(rt, told, number, live)
}

// Overwriting: what, where, the value. It prints nothing.
fn overwrite(reader: &mut Reader<'_>, live: &mut Live) {
    let what = reader.number();
    let i = reader.number() as usize;
    if what == 3 {
        let level = reader.any_level();
        if let Some(place) = live.levels.get_mut(i) {
            *place = level;
        }
        return;
    }
    let x = reader.word();
    match what {
        0 => live.units = x,
        1 => live.links = x,
        2 => base_slices::put(&mut live.ends, i, x),
        4 => base_slices::put(&mut live.counts, i, x),
        _ => (),
    }
}

// A case: the number of steps, and each of them, from no table. A step is 1 to open, 2 to add, 3 to withdraw, and any
// other number to overwrite.
fn case(rt: &impl Print, reader: &mut Reader<'_>, told: Told) -> io::Result<()> {
    let none = Live::opened(0, &[], &[]);
    let mut live = none.live;
    for _ in 0..reader.number() {
        match reader.number() {
            1 => open(rt, reader, &mut live, told)?,
            2 => add(rt, reader, &mut live, told)?,
            3 => withdraw(rt, reader, &mut live, told)?,
            _ => overwrite(reader, &mut live),
        }
    }
    if told == Told::Lines {
        print_table(rt, &live)?;
    }
    Ok(())
}

// What argument `i` asks for: numbers, if it begins as that word does.
fn asked(rt: &impl Env, i: usize) -> Told {
    let mut word = base_io::buffer();
    base_io::arg(rt, i, &mut word);
    match word[0] {
        b'n' => Told::Numbers,
        _ => Told::Lines,
    }
}

// What is printed goes there.
#[derive(Drop)]
struct Check<'a, R> {
    rt: &'a R,
    told: Told,
}

impl<R: Print> CaseVisitor for Check<'_, R> {
    fn case(&mut self, reader: &mut Reader<'_>) -> io::Result<()> {
        case(self.rt, reader, self.told)
    }
}

fn main(rt: HostRuntime) -> io::Result<()> {
    for pair in 0..base_io::arg_count(&rt) / 2 {
        let told = asked(&rt, 2 * pair + 1);
        let mut name = base_io::buffer();
        let mut input = base_io::large_buffer();
        let length = base_io::arg(&rt, 2 * pair + 2, &mut name);
        if let Some(stream) = base_io::read_file(&rt, &name[..length], &mut input)? {
            base_streams::each_case(&rt, stream, &mut Check { rt: &rt, told })?;
        }
    }
    Ok(())
}
