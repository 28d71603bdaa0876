// What the programs read, print and are told: input, files and arguments into lent slices, bytes and numbers to
// standard output. A failed read or write is an error for the caller, and no function here ends the process.
#![tactic(auto)]

ghost use Rattle.std.specs.Prelude.{◌≡◌, ◌<◌, IfOk, length, take};
ghost use Rattle.std.specs.Io.KnownBytes.{Consumes, IsAtEnd};
ghost use Rattle.base_io.specs.Counts.{IsPrefixLen};

mod each;
mod line;

pub use each::{FileVisitor, each_file, read_file, text_arg};
pub use line::Line;
use std::env::FillError;
use std::fs::File;
use std::io::{Eprint, ErrorKind, Input, Print, Read};
use std::rt::{Env, Files};
use std::{io, str};

// Zeros that hold any path.
pub fn buffer() -> [u8; 4096]
    ensures { 4096 ≡ length result }
{
    [0; 4096]
}

// Zeros that hold any input of a program and one byte more, so that a longer one shows.
pub fn large_buffer() -> [u8; 65536]
    ensures { 65536 ≡ length result }
{
    [0; 65536]
}

// How many arguments the program was started with, its own name among them.
pub fn arg_count(rt: &impl Env) -> usize {
    let mut name = buffer();
    for i in 0..usize::MAX {
        if let Err(FillError::NotPresent) = rt.arg(i, &mut name) {
            return i;
        }
    }
    usize::MAX
}

// Argument `i` at the start of `buf`, and its length: 0 where it is missing or longer than `buf`.
pub fn arg(rt: &impl Env, i: usize, buf: &mut [u8]) -> usize
    ensures { IsPrefixLen result buf.new }
{
    rt.arg(i, buf).unwrap_or(0)
}

// The file of that name, open for reading. A name that is not UTF-8 names none.
pub fn open_read<R: Files>(rt: &R, name: &[u8]) -> io::Result<R::File> {
    match str::from_utf8(name) {
        Ok(path) => File::open(rt, path),
        Err(_) => Err(io::Error::from(ErrorKind::InvalidFilename)),
    }
}

// Reads until `buf` is full or the input ends, and returns how many bytes it put at the start of `buf`.
pub fn read_full<R: Read>(reader: &mut R, buf: &mut [u8]) -> io::Result<usize>
    ensures bound { IfOk result (λ n. IsPrefixLen n buf.new) }
    ensures bytes { IfOk result (λ n. Consumes (R.remaining reader.old) (R.remaining reader.new) (take n buf.new)) }
    ensures end { IfOk result (λ n. n < length buf.new → IsAtEnd (R.remaining reader.new)) }
{
    let mut done = 0;
    while done < buf.len() {
        let n = reader.read(&mut buf[done..])?;
        if n == 0 {
            break;
        }
        done += n;
    }
    Ok(done)
}

// The same from standard input.
pub fn read_input(rt: &impl Input, buf: &mut [u8]) -> io::Result<usize>
    ensures { IfOk result (λ n. IsPrefixLen n buf.new) }
{
    read_full(&mut rt.reader(), buf)
}

// All of `bytes` to standard output.
pub fn write_all(rt: &impl Print, bytes: &[u8]) -> io::Result<()> {
    rt.write_all(bytes)
}

pub fn print_decimal(rt: &impl Print, n: u64) -> io::Result<()> {
    rt.print(n)
}

// A line on standard error: what failed, as the caller names it, and why.
pub fn fail(rt: &impl Eprint, what: &[u8], error: &io::Error) -> io::Result<()> {
    let name = str::from_utf8(what).unwrap_or("?");
    eprintln!(rt; "{name}: {error}")
}

#[cfg(test)]
mod tests {
    use super::*;
    use std::test::Fail;

    // Gives its bytes two at a time, and then ends or fails.
    #[derive(Drop)]
    struct InTwos<'a> {
        left: &'a [u8],
        fails: bool,
    }

    impl Read for InTwos<'_> {
        fn read(&mut self, buf: &mut [u8]) -> io::Result<usize> {
            let count = self.left.len().min(2).min(buf.len());
            let (first, others) = self.left.split_at(count);
            buf[..count].copy_from_slice(first);
            self.left = others;
            if count == 0 && self.fails {
                return Err(io::Error::from(ErrorKind::ConnectionReset));
            }
            Ok(count)
        }
    }

    #[test]
    fn reads_to_the_end(rt: HostRuntime) -> Result<(), Fail> {
        let mut buf = [7u8; 8];
        let mut reader = InTwos {
            left: b"abcde",
            fails: false,
        };
        assert_eq!(rt; read_full(&mut reader, &mut buf)?, 5);
        assert_eq!(rt; buf, [97, 98, 99, 100, 101, 7, 7, 7]);
        assert_eq!(rt; read_full(&mut reader, &mut buf)?, 0);
        Ok(())
    }

    #[test]
    fn reads_until_full(rt: HostRuntime) -> Result<(), Fail> {
        let mut buf = [7u8; 3];
        let mut reader = InTwos {
            left: b"abcde",
            fails: true,
        };
        assert_eq!(rt; read_full(&mut reader, &mut buf)?, 3);
        assert_eq!(rt; buf, [97, 98, 99]);
        Ok(())
    }

    #[test]
    fn failed_read_is_an_error(rt: HostRuntime) {
        let mut buf = [7u8; 8];
        let mut reader = InTwos {
            left: b"abcde",
            fails: true,
        };
        assert!(rt; read_full(&mut reader, &mut buf).is_err());
        assert!(rt; read_full(&mut reader, &mut buf).is_err());
    }

    #[test]
    fn names_and_arguments(rt: HostRuntime) {
        let mut name = buffer();
        let length = arg(&rt, 0, &mut name);
        assert!(rt; 0 < length);
        assert_eq!(rt; arg(&rt, 0, &mut []), 0);
        assert_eq!(rt; arg(&rt, arg_count(&rt), &mut name), 0);
        assert!(rt; open_read(&rt, b"no file of this name").is_err());
        assert!(rt; open_read(&rt, &[255]).is_err());
    }

    #[test]
    fn prints(rt: HostRuntime) -> Result<(), Fail> {
        write_all(&rt, b"so ")?;
        print_decimal(&rt, 18446744073709551615)?;
        fail(&rt, b"name", &io::Error::from(ErrorKind::NotFound))?;
        Ok(())
    }
}
