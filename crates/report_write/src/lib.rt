// What both faces share of the calls that ask: why a report, or a call that names two links, is refused, and a report's
// lines from plain tables.
#![tactic(auto)]

ghost use Rattle.std.specs.Prelude.{◌≡◌, not, [], ◌∷◌, eqb, ltb};
ghost use Rattle.table.specs.Refusals.{first_of};
ghost use Rattle.spec_machine.specs.Report.{report_length};

use spec_state::Clock;

mod lines;
mod links;

pub use lines::report_lines;
pub use links::two_links;

// The number of the first cause among 10, 12, 14, given whether the state is well formed.
pub fn report_refusal(well: bool, stage: u16, units: u16, links: u16, places: usize) -> u8
    ensures { result ≡ first_of ((10, not well) ∷ (12, not (eqb stage 11))
        ∷ (14, ltb places (report_length units links)) ∷ []) }
{
    if !well {
        return table_refusals::NOT_KEPT;
    }
    if stage != Clock::FINISHED {
        return table_refusals::BEFORE_END;
    }
    if places < 26 + 23 * (units as usize) + 15 * (links as usize) {
        return table_refusals::TOO_SHORT;
    }
    0
}
