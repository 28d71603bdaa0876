// A ring of a finished survey that holds two links (T-04), by value.
#![tactic(auto)]

ghost use Rattle.std.specs.Prelude.{◌≡◌, drop};
ghost use Rattle.survey.specs.View.{of};
ghost use Rattle.value_ring.specs.Shown.{answer_of, number_of};
ghost use Rattle.value_ring.specs.ShownRight.{RingLaid, ShownRight};

use survey::Survey;

// What the call replies: the number of units of the ring that was written, that there is none, or the number of a
// refusal.
#[derive(Clone, Copy)]
pub enum Shown {
    Ring(u16),
    NoRing,
    Refused(u8),
}

// What it hands back: the state, and beside it its reply.
#[derive(Clone, Copy)]
pub struct Answer {
    pub survey: Survey,
    pub reply: Shown,
}

impl Answer {
    // The number of the reply: 0 where the call was not refused.
    pub fn number(self) -> u8
        ensures { result ≡ number_of self.reply }
    {
        let reply = self.reply;
        match reply {
            Shown::Refused(number) => number,
            Shown::NoRing => 0,
            Shown::Ring(_) => 0,
        }
    }
}

// Writes the units of a ring that holds both links to the front of `out`, the two ends of the first link first, and
// returns their number, 0 where there is no ring. Words past that number are not touched, whatever the table is.
pub fn lay_ring<'a>(
    units: u16,
    links: u16,
    ends: &'a [u16],
    first: u16,
    second: u16,
    out: &mut [u16],
) -> u16
    ensures laid { RingLaid units links ends.now first second out.old
        out.new result }
    ensures past { drop result out.new ≡ drop result out.old }
{
    let marks = ring_tables::unmarked();
    ring_search::ring(&marks, units, links, ends, first, second, out)
}

// The ring of a finished survey: 10, 12, 13, 14. Words past the ring are not touched; without a ring, no word is.
pub fn show(survey: Survey, first: u16, second: u16, out: &mut [u16]) -> Answer
    ensures { ShownRight first second (of survey) out.old (answer_of result) out.new }
{
    let short = out.len() < survey.table.units as usize;
    let refused = report_write::two_links(
        survey.well_formed(),
        survey.clock.stage,
        survey.table.links,
        first,
        second,
        14,
        short,
    );
    if refused != 0 {
        return Answer {
            survey,
            reply: Shown::Refused(refused),
        };
    }
    let units = survey.table.units;
    let links = survey.table.links;
    let count = lay_ring(units, links, &survey.table.ends, first, second, out);
    if count == 0 {
        return Answer {
            survey,
            reply: Shown::NoRing,
        };
    }
    Answer {
        survey,
        reply: Shown::Ring(count),
    }
}
