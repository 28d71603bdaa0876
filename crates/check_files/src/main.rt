// Reads each file that an argument names and writes it back, and does the same with what was written: a line with its
// name, and the number of a refusal, or "same" where what was written is the file, with link lines of kind 03 for those
// of kind 02, and every byte of it came back.
#![tactic(auto)]

use base_io::FileVisitor;
use file_spec::Writing;
use std::io;

// In place of the number of a refusal: what was written is not the file.
const DIFFERS: u8 = 255;

// The file written from what is read of `file`, at the front of `copy`, or the number of a refusal.
fn rewritten<'a>(file: &[u8], copy: &'a mut [u8]) -> Result<&'a [u8], u8> {
    let mut words = [0u16; 2048];
    let mut levels = [0i16; 1024];
    match file_round_trip::read_then_write(file, &mut words, &mut levels, copy) {
        Writing::Refused(number) => Err(number),
        Writing::Written(characters) => copy.get(..characters as usize).ok_or(DIFFERS),
    }
}

// Whether a line, without its line feed, stands in the copy: as it is, or one of kind 02 with kind 03 and the level
// -127. The check byte is judged where the copy is read.
fn line_carried(line: &[u8], copied: &[u8]) -> bool {
    match line.strip_prefix(b"02") {
        Some(rest) => {
            rest.len() == 10
                && copied.len() == 14
                && copied.starts_with(b"03")
                && copied[2..10] == rest[..8]
                && copied[10..].starts_with(b"81")
        }
        None => line == copied,
    }
}

// Whether the copy is the file, with link lines of kind 03 for those of kind 02.
fn carried(file: &[u8], copy: &[u8]) -> bool {
    let mut copied = copy.split(|c| *c == b'\n');
    for line in file.split(|c| *c == b'\n') {
        match copied.next() {
            Some(other) if line_carried(line, other) => (),
            _ => return false,
        }
    }
    copied.next().is_none()
}

fn verdict(file: &[u8]) -> Result<(), u8> {
    // A program's input is at most 65,535 bytes long: one more is refusal 1.
    if 65535 < file.len() {
        return Err(1);
    }
    let mut copy = [0u8; 65536];
    let written = rewritten(file, &mut copy)?;
    if !carried(file, written) {
        return Err(DIFFERS);
    }
    let mut again = [0u8; 65536];
    if rewritten(written, &mut again)? == written {
        Ok(())
    } else {
        Err(DIFFERS)
    }
}

fn say(rt: &impl Print, name: &str, file: &[u8]) -> io::Result<()> {
    match verdict(file) {
        Ok(()) => println!(rt; "{name} same"),
        Err(number) => println!(rt; "{name} {number}"),
    }
}

// What is printed goes there.
#[derive(Drop)]
struct Check<'a, R> {
    rt: &'a R,
}

impl<R: Print> FileVisitor for Check<'_, R> {
    fn file(&mut self, name: &str, bytes: &[u8]) -> io::Result<()> {
        say(self.rt, name, bytes)
    }
}

fn main(rt: HostRuntime) -> io::Result<()> {
    base_io::each_file(&rt, base_io::arg_count(&rt), &mut Check { rt: &rt })
}
