// From the bytes of a survey file to the bytes of its report, on the words of a state: for a caller with a small stack.
#![tactic(auto)]

ghost use Rattle.std.specs.Prelude.{◌≡◌, length};
ghost use Rattle.report_program.specs.Printed.{printed_read, printed, laid_over, laid_count};

use words_layout::STATE_WORDS;

// Prints over the front of `out` and gives the number of bytes: the report, or only a refusal's line; where `out` is
// too short, nothing and 0.
pub fn report(input: &[u8], out: &mut [u8]) -> u32
    ensures count { result ≡ laid_count (printed input.now) (length out.old) }
    ensures bytes { out.new ≡ laid_over (printed input.now) out.old }
{
    let mut words: [u16; 2048] = [0; 2048];
    let mut levels: [i16; 1024] = [0; 1024];
    let found = report_program::taken(input, &mut words, &mut levels);
    let links = found.links;
    let end = 2 * links;
    surveyed(
        found.unread,
        found.units,
        &words[..end],
        &levels[..links],
        out,
    )
}

// A table loaded as a stored one, surveyed to the end and reported, unless reading was refused.
fn surveyed(unread: u8, units: u16, table: &[u16], levels: &[i16], out: &mut [u8]) -> u32
    ensures count { result ≡ laid_count
        (printed_read unread (record { units = units; words = table.now; levels = levels.now }))
        (length out.old) }
    ensures bytes { out.new
        ≡ laid_over (printed_read unread (record {
          units = units;
          words = table.now;
          levels = levels.now;
        })) out.old }
{
    if unread != 0 {
        return report_program::refusal(unread, out);
    }
    let mut state = [0; STATE_WORDS];
    let refused = words_calls::load_stored(&mut state, units, table, levels);
    if refused != 0 {
        let number = refused as u8;
        return report_program::refusal(number, out);
    }
    let mut made = 0;
    words_calls::run(&mut state, 65535, &mut made);
    if words_calls::report(&state, out) != 0 {
        return 0;
    }
    // The report's head and tail, a line a unit and a line a link.
    26 + 23 * (units as u32) + 15 * ((table.len() / 2) as u32)
}
