// The lifting order of a finished survey (T-07), by value.
#![tactic(auto)]

ghost use Rattle.std.specs.Prelude.{◌≡◌, length};
ghost use Rattle.survey.specs.View.{of};
ghost use Rattle.value_lifting.specs.Lifting.{early_refusal, lifting_answer, lifted, answer_of, number_of};

use survey::{Clock, Survey};

// What a lifting call replies: the number of units in the order, or the number of a refusal.
#[derive(Clone, Copy)]
pub enum Lifting {
    Lifted(u16),
    Refused(u8),
}

// What it hands back: the state, and beside it its reply.
#[derive(Clone, Copy)]
pub struct Answer {
    pub survey: Survey,
    pub reply: Lifting,
}

impl Answer {
    // The number of the reply: 0 where the call was not refused.
    pub fn number(self) -> u8
        ensures { result ≡ number_of self.reply }
    {
        let reply = self.reply;
        match reply {
            Lifting::Refused(number) => number,
            Lifting::Lifted(_) => 0,
        }
    }
}

// The number of the first cause among 10, 12.
fn early_refusal(s: Survey) -> u8
    ensures { result ≡ early_refusal (of s) }
{
    if !s.well_formed() {
        return table_refusals::NOT_KEPT;
    }
    if s.clock.stage != Clock::FINISHED {
        return table_refusals::BEFORE_END;
    }
    0
}

// The order at the front of `out`, the unit to be lifted first in front: 10, 12, 14, 19, 20. Words past it stay.
// `pairs` has two units a pair, "this before that".
pub fn lift<'a>(survey: Survey, pairs: &'a [u16], out: &mut [u16]) -> Answer
    ensures reply { answer_of result ≡ lifting_answer pairs.now (length out.old) (of survey) }
    ensures lent { out.new ≡ lifted pairs.now (of survey) out.old }
{
    let early = early_refusal(survey);
    if early != 0 {
        return Answer {
            survey,
            reply: Lifting::Refused(early),
        };
    }
    let units = survey.table.units;
    let refused = lifting_order::write(units, survey.table.links, &survey.table.ends, pairs, out);
    if refused != 0 {
        return Answer {
            survey,
            reply: Lifting::Refused(refused),
        };
    }
    Answer {
        survey,
        reply: Lifting::Lifted(units),
    }
}
