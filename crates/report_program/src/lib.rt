// What the program prints: definitions, the statement about any input and its proof; and in code what both faces share,
// the input taken and the line of a refusal.
#![tactic(auto)]

ghost use Rattle.std.specs.Prelude.{◌≡◌, cond, ◌≤◌, eqb, length};
ghost use Rattle.table.specs.Refusals.{written};
ghost use Rattle.file_spec.specs.File.{lines_of, link_frames};
ghost use Rattle.report_program.specs.Printed.{LEVELS, unread_by, table_in, refusal_line, laid_over, laid_count};

use file_frames::{kinds, line};
use file_spec::Reading;

// The longest input, and the longest output: the report of 256 units and 1,024 links.
pub const MAX_INPUT: usize = 65535;

pub const MAX_OUTPUT: usize = 21274;

// What was found: the number of a refusal, else 0; the unit count and the number of links.
#[derive(Clone, Copy)]
pub struct Found {
    pub unread: u8,
    pub units: u16,
    pub links: usize,
}

// The input read to the front of `words` and `levels`: 1, 2, 3, 6, 16, 14. On a refusal nothing changes.
pub fn taken(input: &[u8], words: &mut [u16], levels: &mut [i16]) -> Found
    ensures number { result.unread ≡ unread_by input.now (length words.old)
        (length levels.old) }
    ensures units { result.units ≡ cond
        (eqb (unread_by input.now (length words.old) (length levels.old)) 0)
        (table_in input.now).units 0 }
    ensures links { result.links ≡ cond
        (eqb (unread_by input.now (length words.old) (length levels.old)) 0)
        (link_frames (lines_of input.now)) 0 }
    ensures fits { result.links ≤ LEVELS }
    ensures words { words.new
        ≡ written (unread_by input.now (length words.old) (length levels.old))
        (table_in input.now).words words.old }
    ensures levels { levels.new
        ≡ written (unread_by input.now (length words.old) (length levels.old))
        (table_in input.now).levels levels.old }
{
    if MAX_INPUT < input.len() {
        return Found {
            unread: 1,
            units: 0,
            links: 0,
        };
    }
    let found = file_read::read(input, words, levels);
    match found {
        Reading::Refused(number) => Found {
            unread: number,
            units: 0,
            links: 0,
        },
        Reading::Read { units, links } => Found {
            unread: 0,
            units,
            links: links as usize,
        },
    }
}

// The line of a refusal.
pub fn refusal(number: u8, out: &mut [u8]) -> u32
    ensures count { result ≡ laid_count (refusal_line number) (length out.old) }
    ensures bytes { out.new ≡ laid_over (refusal_line number) out.old }
{
    let body = [kinds::REFUSAL, number];
    line::write(&body, out);
    if out.len() < 7 { 0 } else { 7 }
}
