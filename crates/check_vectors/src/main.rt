// Takes its arguments two by two, a survey file and what the program must print for it: a line for each with its name,
// and at the end the number of files and of those that differ.
#![tactic(auto)]

ghost use Rattle.std.specs.Prelude.{◌+◌, ◌≤◌, ◌<◌, ◌^◌, IfOk};
ghost use Rattle.base_io.specs.Counts.{IsPrefixLen};

use std::io;
use std::rt::{Env, Files};

// Whether the report of the input is, byte for byte, what is expected.
fn as_expected(input: &[u8], expected: &[u8]) -> bool {
    let mut out = [0u8; report_program::MAX_OUTPUT];
    let count = value_report::report(input, &mut out) as usize;
    front_is(&out, count, expected)
}

// Whether the first so many bytes are those.
fn front_is(out: &[u8], count: usize, expected: &[u8]) -> bool {
    if out.len() < count {
        return false;
    }
    &out[..count] == expected
}

// The file of argument `i` into `buf`, and its length.
fn read(rt: &(impl Env + Eprint + Files + Print), i: usize, buf: &mut [u8]) -> io::Result<usize>
    ensures { IfOk result (λ n. IsPrefixLen n buf.new) }
{
    let mut name = base_io::buffer();
    let length = base_io::arg(rt, i, &mut name);
    match base_io::open_read(rt, &name[..length]) {
        Ok(mut file) => base_io::read_full(&mut file, buf),
        Err(error) => {
            base_io::fail(rt, &name[..length], &error)?;
            Ok(0)
        }
    }
}

fn say(rt: &(impl Env + Print), i: usize, same: bool) -> io::Result<()> {
    let mut name = base_io::buffer();
    let length = base_io::arg(rt, i, &mut name);
    base_io::write_all(rt, &name[..length])?;
    if same {
        base_io::write_all(rt, b" as expected\n")
    } else {
        base_io::write_all(rt, b" differs\n")
    }
}

// The pair at argument `i`: 1 where it differs.
fn one(rt: &(impl Env + Eprint + Files + Print), i: usize) -> io::Result<u64>
    requires { i + 1 < 2 ^ 64 }
    ensures { IfOk result (λ n. n ≤ 1) }
{
    let mut input = base_io::large_buffer();
    let mut expected = base_io::large_buffer();
    let given = read(rt, i, &mut input)?;
    let wanted = read(rt, i + 1, &mut expected)?;
    let same = as_expected(&input[..given], &expected[..wanted]);
    say(rt, i, same)?;
    if same { Ok(0) } else { Ok(1) }
}

fn main(rt: HostRuntime) -> io::Result<()> {
    let count = base_io::arg_count(&rt);
    if count == 0 {
        return Ok(());
    }
    let pairs = (count - 1) / 2;
    let mut differ: u64 = 0;
    for k in 0..pairs {
        differ += one(&rt, 2 * k + 1)?;
    }
    base_io::print_decimal(&rt, pairs as u64)?;
    base_io::write_all(&rt, b" files, ")?;
    base_io::print_decimal(&rt, differ)?;
    base_io::write_all(&rt, b" differ\n")
}
