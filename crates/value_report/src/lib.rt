// From the bytes of a survey file to the bytes of its report, by the calls by value: all that the program does between
// reading and printing.
#![tactic(auto)]

ghost use Rattle.std.specs.Prelude.{◌≡◌, ◌≤◌, length};
ghost use Rattle.spec_machine.specs.Calls.{number_of};
ghost use Rattle.report_program.specs.Printed.{count_of, printed_read, printed, laid_over, laid_count};

use survey::{Reply, Survey};

// Prints over the front of `out` and gives the number of bytes: the report, or only a refusal's line; where `out` is
// too short, nothing and 0.
pub fn report(input: &[u8], out: &mut [u8]) -> u32
    ensures count { result ≡ laid_count (printed input.now) (length out.old) }
    ensures bytes { out.new ≡ laid_over (printed input.now) out.old }
    ensures fits { result ≤ length out.old }
{
    let mut words: [u16; 2048] = [0; 2048];
    let mut levels: [i16; 1024] = [0; 1024];
    let found = report_program::taken(input, &mut words, &mut levels);
    let links = found.links;
    let end = 2 * links;
    surveyed(
        found.unread,
        found.units,
        &words[..end],
        &levels[..links],
        out,
    )
}

// A table loaded as a stored one, surveyed to the end and reported, unless reading was refused.
fn surveyed(unread: u8, units: u16, table: &[u16], levels: &[i16], out: &mut [u8]) -> u32
    ensures count { result ≡ laid_count
        (printed_read unread (record { units = units; words = table.now; levels = levels.now }))
        (length out.old) }
    ensures bytes { out.new
        ≡ laid_over (printed_read unread (record {
          units = units;
          words = table.now;
          levels = levels.now;
        })) out.old }
{
    if unread != 0 {
        return report_program::refusal(unread, out);
    }
    let loaded = Survey::new().load_stored(units, table, levels);
    let reply = loaded.reply;
    let number = number_of(reply);
    if number != 0 {
        return report_program::refusal(number, out);
    }
    let begun = loaded.survey;
    let ran = begun.run(65535);
    let ended = ran.survey;
    let done = value_calls::report(ended, out);
    let said = done.reply;
    count_of(said)
}

// The number of a refusal, else 0.
fn number_of(reply: Reply) -> u8
    ensures { result ≡ number_of reply }
{
    match reply {
        Reply::Refused(number) => number,
        Reply::Done => 0,
        Reply::Made(_) => 0,
        Reply::Status { .. } => 0,
        Reply::Unit { .. } => 0,
        Reply::Link { .. } => 0,
        Reply::Read { .. } => 0,
        Reply::Written(_) => 0,
    }
}

// The characters that were written.
fn count_of(reply: Reply) -> u32
    ensures { result ≡ count_of reply }
{
    match reply {
        Reply::Refused(_) => 0,
        Reply::Done => 0,
        Reply::Made(_) => 0,
        Reply::Status { .. } => 0,
        Reply::Unit { .. } => 0,
        Reply::Link { .. } => 0,
        Reply::Read { .. } => 0,
        Reply::Written(count) => count,
    }
}
