// The files that a program's arguments name.
ghost use Rattle.std.specs.Prelude.{◌≤◌, IfOk, IfSome, IsOk, length};

use std::io::Eprint;
use std::rt::{Env, Files};
use std::{io, str};

// Argument `i` as text, at the front of `buf`: empty where it is missing, longer than `buf` or not UTF-8.
pub fn text_arg<'a>(rt: &impl Env, i: usize, buf: &'a mut [u8]) -> &'a str
    ensures { length result.now ≤ length buf.old }
{
    let length = super::arg(rt, i, buf);
    str::from_utf8(&buf[..length]).unwrap_or("")
}

// The bytes of the file of that name, as many as `buf` holds; `None`, and a line on standard error, where it cannot be
// opened.
pub fn read_file<'a>(
    rt: &(impl Eprint + Files),
    name: &[u8],
    buf: &'a mut [u8],
) -> io::Result<Option<&'a [u8]>>
    ensures { IfOk result (λ found. IfSome found (λ bytes. length bytes.now ≤ length buf.old)) }
{
    match super::open_read(rt, name) {
        Ok(mut file) => {
            let got = super::read_full(&mut file, buf)?;
            Ok(Some(&buf[..got]))
        }
        Err(error) => {
            super::fail(rt, name, &error)?;
            Ok(None)
        }
    }
}

// What a program makes of each file. A closure in its place would have to be asked for leave to be called (D52).
pub trait FileVisitor {
    fn file(&mut self, name: &str, bytes: &[u8]) -> io::Result<()>;
}

// Hands over the name and the first 65,536 bytes of each file that one of so many arguments names, the first of which
// is the program's own name.
pub fn each_file<R: Env + Eprint + Files, V: FileVisitor>(
    rt: &R,
    arguments: usize,
    visitor: &mut V,
) -> io::Result<()>
    ensures { arguments ≤ 1 → IsOk result }
{
    for i in 1..arguments {
        let mut room = super::buffer();
        let length = super::arg(rt, i, &mut room);
        let mut input = super::large_buffer();
        if let Some(bytes) = read_file(rt, &room[..length], &mut input)? {
            visitor.file(text_arg(rt, i, &mut room), bytes)?;
        }
    }
    Ok(())
}
