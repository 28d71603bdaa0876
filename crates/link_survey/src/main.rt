// The program: a survey file on standard input, its report on standard output. A failed read or write ends it with an
// error.
#![tactic(auto)]

use std::io;

fn main(rt: HostRuntime) -> io::Result<()> {
    // One byte more than the longest input, so that a longer one shows.
    let mut input = base_io::large_buffer();
    let got = base_io::read_input(&rt, &mut input)?;
    let mut out = [0u8; report_program::MAX_OUTPUT];
    let count = value_report::report(&input[..got], &mut out) as usize;
    base_io::write_all(&rt, &out[..count])
}
