// A line of text that is put together before it is printed, so that it goes out by one write.
ghost use Rattle.std.specs.Prelude.{◌≡◌, ◌<◌, IsOk, OnOk};
ghost use Rattle.std.specs.Fmt.{WritesText, with_newline};
ghost use Rattle.base_io.specs.Lines.{end_after};

use std::fmt::{Display, Write};
use std::io::{ErrorKind, Print};
use std::{fmt, io};

// Room for `N` bytes. The bytes of a longer line are counted, and it is not printed.
#[derive(Drop)]
pub struct Line<const N: usize> {
    pub bytes: [u8; N],
    pub end: usize,
}

// What comes of a text that was put at the end of a line.
fn told(put: fmt::Result) -> io::Result<()>
    ensures { IsOk result → IsOk put }
{
    match put {
        Ok(()) => Ok(()),
        Err(_) => Err(io::Error::from(ErrorKind::Other)),
    }
}

impl<const N: usize> Line<N> {
    pub fn new() -> Line<N>
        ensures { result.end ≡ 0 }
    {
        Line {
            bytes: [0; N],
            end: 0,
        }
    }

    // `print!(line; ..)` puts a text at the end of the line.
    pub fn print<D: Display + Drop>(&mut self, value: D) -> io::Result<()>
        ensures { OnOk result (WritesText (λ old s new. new.end ≡ end_after old.end s)
            self.old (D.output value) self.new) }
    {
        told(self.write(value))
    }

    // `println!(line; ..)` puts a text and a line feed there.
    pub fn println<D: Display + Drop>(&mut self, value: D) -> io::Result<()>
        ensures { OnOk result (WritesText (λ old s new. new.end ≡ end_after old.end s)
            self.old (with_newline (D.output value)) self.new) }
    {
        told(self.writeln(value))
    }

    // The line goes to standard output.
    pub fn send(&self, rt: &impl Print) -> io::Result<()>
        ensures { N < self.now.end → IsOk result }
    {
        match self.bytes.get(..self.end) {
            Some(line) => super::write_all(rt, line),
            None => Ok(()),
        }
    }
}

impl<const N: usize> fmt::Write for Line<N> {
    ghost write_str_gives = { λ old s new. new.end ≡ end_after old.end s };

    fn write_str(&mut self, s: &str) -> fmt::Result {
        let at = self.end;
        self.end = at.saturating_add(s.len());
        if let Some(room) = self.bytes.get_mut(at..self.end) {
            room.copy_from_slice(s.as_bytes());
        }
        Ok(())
    }
}
