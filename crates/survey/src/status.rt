// Status: 10.
ghost use Rattle.std.specs.Prelude.{◌≡◌};
ghost use Rattle.spec_machine.specs.Calls.{status_answer};
ghost use Rattle.survey.specs.View.{of, answer_of};

use super::answer::Answer;
use super::whole::Survey;
use spec_state::Reply;

impl Survey {
    pub fn status(self) -> Answer
        ensures { answer_of result ≡ status_answer (of self) }
    {
        if !self.well_formed() {
            return Answer {
                survey: self,
                reply: Reply::Refused(table_refusals::NOT_KEPT),
            };
        }
        let c = self.clock;
        Answer {
            survey: self,
            reply: Reply::Status {
                stage: c.stage,
                countdown: stage_clock::countdown(self.table.units, c.stage, c.made),
                rounds: c.rounds,
                requests: c.requests,
            },
        }
    }
}
