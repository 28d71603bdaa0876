// Whether a ring holds two links of a finished survey however many of the doubtful ones are absent (T-08), by value.
#![tactic(auto)]

ghost use Rattle.std.specs.Prelude.{◌≡◌};
ghost use Rattle.survey.specs.View.{of};
ghost use Rattle.value_doubtful.specs.Doubtful.{answer_of, number_of};
ghost use Rattle.value_doubtful.specs.DoubtRight.{VerdictTold, DoubtRight};

use survey::Survey;

// What the call replies: that every setting has a ring with both, that only some have one, that none has; or a refusal.
#[derive(Clone, Copy)]
pub enum Verdict {
    Always,
    Perhaps,
    Never,
    Refused(u8),
}

// What it hands back: the state, and beside it its reply.
#[derive(Clone, Copy)]
pub struct Answer {
    pub survey: Survey,
    pub reply: Verdict,
}

impl Answer {
    // The number of the reply: 0 where the call was not refused.
    pub fn number(self) -> u8
        ensures { result ≡ number_of self.reply }
    {
        let reply = self.reply;
        match reply {
            Verdict::Refused(number) => number,
            Verdict::Always => 0,
            Verdict::Perhaps => 0,
            Verdict::Never => 0,
        }
    }
}

// A byte a link in `marks`, 0 for a sure one and any other for a doubtful one. Two questions are enough: whether the
// sure links of a site have a ring that holds both, and whether all links have one.
#[tactic(auto, using(crate::proofs::Told::told))]
pub fn judged<'a>(
    marks: &'a [u8],
    units: u16,
    links: u16,
    ends: &'a [u16],
    first: u16,
    second: u16,
) -> Verdict
    ensures number { number_of result ≡ 0 }
    ensures told { VerdictTold units links ends.now marks.now first second result }
{
    let sure = ring_search::ringed(marks, units, links, ends, first, second);
    if sure {
        return Verdict::Always;
    }
    let none = ring_tables::unmarked();
    let all = ring_search::ringed(&none, units, links, ends, first, second);
    if all {
        return Verdict::Perhaps;
    }
    Verdict::Never
}

// Of a finished survey: 10, 12, 13, 15.
pub fn doubt<'a>(survey: Survey, first: u16, second: u16, marks: &'a [u8]) -> Answer
    ensures { DoubtRight first second marks.now (of survey) (answer_of result) }
{
    let differ = marks.len() != survey.table.links as usize;
    let refused = report_write::two_links(
        survey.well_formed(),
        survey.clock.stage,
        survey.table.links,
        first,
        second,
        15,
        differ,
    );
    if refused != 0 {
        return Answer {
            survey,
            reply: Verdict::Refused(refused),
        };
    }
    let units = survey.table.units;
    let links = survey.table.links;
    let reply = judged(marks, units, links, &survey.table.ends, first, second);
    Answer { survey, reply }
}
