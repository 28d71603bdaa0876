// Surveys each file that an argument names, round by round: a line with its name, then the status after the load and
// after each round.
#![tactic(auto)]

use file_spec::Reading;
use std::io;
use std::rt::{Env, Files};
use survey::{Reply, Survey};

fn number(rt: &impl Print, n: u16) -> io::Result<()> {
    base_io::print_decimal(rt, n as u64)?;
    base_io::write_all(rt, b" ")
}

// Prints the status; whether the survey goes on.
fn say(rt: &impl Print, s: Survey) -> io::Result<bool> {
    let answer = s.status();
    let reply = answer.reply;
    match reply {
        Reply::Status {
            stage,
            countdown,
            rounds,
            requests,
        } => {
            number(rt, stage)?;
            number(rt, countdown)?;
            number(rt, rounds)?;
            base_io::print_decimal(rt, requests as u64)?;
            base_io::write_all(rt, b"\n")?;
            Ok(stage != 11)
        }
        _ => {
            base_io::write_all(rt, b"refused\n")?;
            Ok(false)
        }
    }
}

// All rounds, at most as many as any survey takes.
fn rounds(rt: &impl Print, first: Survey) -> io::Result<()> {
    let mut s = first;
    let mut goes = say(rt, s)?;
    for _ in 0..805 {
        if goes {
            let answer = s.round();
            let next = answer.survey;
            s = next;
            goes = say(rt, s)?;
        }
    }
    Ok(())
}

fn surveyed(rt: &impl Print, units: u16, words: &[u16], levels: &[i16]) -> io::Result<()> {
    let answer = Survey::new().load_stored(units, words, levels);
    let first = answer.survey;
    rounds(rt, first)
}

fn loaded(
    rt: &impl Print,
    units: u16,
    links: usize,
    words: &[u16],
    levels: &[i16],
) -> io::Result<()> {
    if words.len() / 2 < links {
        return Ok(());
    }
    if levels.len() < links {
        return Ok(());
    }
    let end = 2 * links;
    surveyed(rt, units, &words[..end], &levels[..links])
}

fn read(rt: &impl Print, file: &[u8]) -> io::Result<()> {
    let mut words = [0u16; 2048];
    let mut levels = [0i16; 1024];
    let found = file_read::read(file, &mut words, &mut levels);
    match found {
        Reading::Read { units, links } => loaded(rt, units, links as usize, &words, &levels),
        Reading::Refused(_) => base_io::write_all(rt, b"not read\n"),
    }
}

// The file of argument `i`.
fn one(rt: &(impl Env + Eprint + Files + Print), i: usize) -> io::Result<()> {
    let mut name = base_io::buffer();
    let length = base_io::arg(rt, i, &mut name);
    base_io::write_all(rt, &name[..length])?;
    base_io::write_all(rt, b"\n")?;
    let mut file = match base_io::open_read(rt, &name[..length]) {
        Ok(file) => file,
        Err(error) => return base_io::fail(rt, &name[..length], &error),
    };
    let mut input = base_io::large_buffer();
    let got = base_io::read_full(&mut file, &mut input)?;
    read(rt, &input[..got])
}

fn main(rt: HostRuntime) -> io::Result<()> {
    let count = base_io::arg_count(&rt);
    for i in 1..count {
        one(&rt, i)?;
    }
    Ok(())
}
