// The calls that ask: questions to a finished survey, its report, and files read and written. Each hands the state back
// beside its answer; a refusal gives only the number, and nothing is written.
#![tactic(auto)]

mod questions;

ghost use Rattle.std.specs.Prelude.{◌≡◌, length};
ghost use Rattle.file_spec.specs.File.{read_words, read_levels, written_file};
ghost use Rattle.spec_machine.specs.Calls.{report_answer, reported, read_answer, write_answer};
ghost use Rattle.survey.specs.View.{of, answer_of};
ghost use Rattle.value_calls.specs.FileAnswers.{reading_reply, writing_reply};

use file_spec::{Reading, Writing};
pub use questions::{link, unit};
use survey::{Answer, Reply, Survey};

// The report at the front of `out`: 10, 12, 14. Bytes past it stay.
pub fn report(survey: Survey, out: &mut [u8]) -> Answer
    ensures reply { answer_of result ≡ report_answer (length out.old) (of survey) }
    ensures lent { out.new ≡ reported (of survey) out.old }
{
    let units = survey.table.units;
    let links = survey.table.links;
    let refused = report_write::report_refusal(
        survey.well_formed(),
        survey.clock.stage,
        units,
        links,
        out.len(),
    );
    if refused != 0 {
        return Answer {
            survey,
            reply: Reply::Refused(refused),
        };
    }
    let length = 26 + 23 * (units as u32) + 15 * (links as u32);
    report_write::report_lines(
        units,
        links,
        survey.clock.rounds,
        survey.clock.requests,
        &survey.table.ends,
        &survey.labels.label,
        &survey.components.color,
        &survey.tree.parent,
        &survey.order.pre,
        out,
    );
    Answer {
        survey,
        reply: Reply::Written(length),
    }
}

fn read_reply(found: Reading) -> Reply
    ensures { result ≡ reading_reply found }
{
    match found {
        Reading::Refused(number) => Reply::Refused(number),
        Reading::Read { units, links } => Reply::Read { units, links },
    }
}

fn write_reply(done: Writing) -> Reply
    ensures { result ≡ writing_reply done }
{
    match done {
        Writing::Refused(number) => Reply::Refused(number),
        Writing::Written(characters) => Reply::Written(characters),
    }
}

// A file's ends into words and its levels beside them: 1, 2, 3, 6, 16, 14. What stands past the last link stays.
pub fn read(survey: Survey, file: &[u8], words: &mut [u16], levels: &mut [i16]) -> Answer
    ensures reply { answer_of result ≡ read_answer file.now (length words.old)
        (length levels.old) (of survey) }
    ensures lent { words.new
        ≡ read_words file.now words.old (length levels.old) }
    ensures levels { levels.new
        ≡ read_levels file.now (length words.old) levels.old }
{
    let found = file_read::read(file, words, levels);
    let reply = read_reply(found);
    Answer { survey, reply }
}

// The file of a unit count, a table and its levels: 4 to 6, 15, 16, 7 to 9, 14. Bytes past it stay.
pub fn write(survey: Survey, units: u16, words: &[u16], levels: &[i16], out: &mut [u8]) -> Answer
    ensures reply { answer_of result ≡ write_answer
        (record { units = units; words = words.now; levels = levels.now }) (length out.old)
        (of survey) }
    ensures lent { out.new
        ≡ written_file units words.now levels.now out.old }
{
    let done = file_write::write(units, words, levels, out);
    let reply = write_reply(done);
    Answer { survey, reply }
}
