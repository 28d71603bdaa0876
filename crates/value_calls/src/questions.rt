// The questions to a finished survey. Each hands the state back beside its answer; a refusal gives only the number.
ghost use Rattle.std.specs.Prelude.{◌≡◌};
ghost use Rattle.spec_machine.specs.Calls.{question_refusal, unit_answer, link_answer};
ghost use Rattle.survey.specs.View.{of, answer_of};

use survey::{Answer, Clock, Reply, Survey};

mod fields;

// What is known of a unit: 10, 12, 13.
pub fn unit(survey: Survey, unit: u16) -> Answer
    ensures { answer_of result ≡ unit_answer unit (of survey) }
{
    let refused = question_refusal(survey, unit < survey.table.units);
    if refused != 0 {
        return Answer {
            survey,
            reply: Reply::Refused(refused),
        };
    }
    Answer {
        survey,
        reply: fields::unit_reply(survey, unit),
    }
}

// What is known of a link: 10, 12, 13.
pub fn link(survey: Survey, position: u16) -> Answer
    ensures { answer_of result ≡ link_answer position (of survey) }
{
    let refused = question_refusal(survey, position < survey.table.links);
    if refused != 0 {
        return Answer {
            survey,
            reply: Reply::Refused(refused),
        };
    }
    Answer {
        survey,
        reply: fields::link_reply(survey, position),
    }
}

// The number of the first cause, given whether the unit or position exists.
fn question_refusal(s: Survey, exists: bool) -> u8
    ensures { result ≡ question_refusal (of s) exists }
{
    if !s.well_formed() {
        return table_refusals::NOT_KEPT;
    }
    if s.clock.stage != Clock::FINISHED {
        return table_refusals::BEFORE_END;
    }
    if exists {
        table_refusals::DONE
    } else {
        table_refusals::NO_SUCH_NAME
    }
}
