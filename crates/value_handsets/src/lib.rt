// The foreman's line and the service line of a survey (T-06), by value. Each call hands the state back beside its
// reply, at every stage.
#![tactic(auto)]

ghost use Rattle.std.specs.Prelude.{◌≡◌, true, length};
ghost use Rattle.spec_machine.specs.WellFormed.{well_formed};
ghost use Rattle.survey.specs.View.{of, answer_of};
ghost use Rattle.handset_lines.specs.Lines.{status_of, line_needed, line_in, line_answer, line_shown, foreman_answer};
ghost use Rattle.handset_lines.specs.Lines.{foreman_shown, service_answer, service_shown};

use handset_lines::Status;
use survey::{Answer, Reply, Survey};

// The status record that both handsets read.
fn status_of(s: Survey) -> Status
    requires { well_formed (of s) ≡ true }
    ensures { result ≡ status_of (of s) }
{
    let c = s.clock;
    Status {
        stage: c.stage,
        countdown: stage_clock::countdown(s.table.units, c.stage, c.made),
        rounds: c.rounds,
        requests: c.requests,
    }
}

// Either line at the front of `out`: 10, 14. Bytes past it stay.
fn shown(service: bool, survey: Survey, out: &mut [u8]) -> Answer
    ensures reply { answer_of result ≡ line_answer (line_needed service) (length out.old) (of survey) }
    ensures lent { out.new
        ≡ line_shown (line_needed service) (line_in service (of survey)) (of survey) out.old }
{
    if !survey.well_formed() {
        return Answer {
            survey,
            reply: Reply::Refused(table_refusals::NOT_KEPT),
        };
    }
    let refused = handset_lines::write(service, status_of(survey), out);
    if refused != 0 {
        return Answer {
            survey,
            reply: Reply::Refused(refused),
        };
    }
    Answer {
        survey,
        reply: Reply::Written(handset_lines::length(service)),
    }
}

// The foreman's line at the front of `out`: 10, 14.
pub fn foreman_line(survey: Survey, out: &mut [u8]) -> Answer
    ensures reply { answer_of result ≡ foreman_answer (length out.old) (of survey) }
    ensures lent { out.new ≡ foreman_shown (of survey) out.old }
{
    shown(false, survey, out)
}

// The service line, in the same way.
pub fn service_line(survey: Survey, out: &mut [u8]) -> Answer
    ensures reply { answer_of result ≡ service_answer (length out.old) (of survey) }
    ensures lent { out.new ≡ service_shown (of survey) out.old }
{
    shown(true, survey, out)
}
