// Reads each survey file that an argument names and prints the file written from what was read, or the line of the
// refusal.
#![tactic(auto)]

use base_io::FileVisitor;
use file_spec::Writing;
use std::io;

// The kind of a refusal's line.
const REFUSAL: u8 = 30;

fn refused(rt: &impl Print, number: u8) -> io::Result<()> {
    let mut line = [0u8; 7];
    file_frames::line::write(&[REFUSAL, number], &mut line);
    base_io::write_all(rt, &line)
}

fn rewritten(rt: &impl Print, file: &[u8]) -> io::Result<()> {
    // A program's input is at most 65,535 bytes long: one more is refusal 1.
    if 65535 < file.len() {
        return refused(rt, 1);
    }
    let mut words = [0u16; 2048];
    let mut levels = [0i16; 1024];
    let mut copy = [0u8; 65536];
    match file_round_trip::read_then_write(file, &mut words, &mut levels, &mut copy) {
        Writing::Refused(number) => refused(rt, number),
        Writing::Written(characters) => match copy.get(..characters as usize) {
            Some(written) => base_io::write_all(rt, written),
            None => Ok(()),
        },
    }
}

// What is printed goes there.
#[derive(Drop)]
struct Check<'a, R> {
    rt: &'a R,
}

impl<R: Print> FileVisitor for Check<'_, R> {
    fn file(&mut self, _name: &str, bytes: &[u8]) -> io::Result<()> {
        rewritten(self.rt, bytes)
    }
}

fn main(rt: HostRuntime) -> io::Result<()> {
    base_io::each_file(&rt, base_io::arg_count(&rt), &mut Check { rt: &rt })
}
