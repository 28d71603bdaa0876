// Why a call that names two links is refused.
ghost use Rattle.std.specs.Prelude.{◌≡◌, eqb};
ghost use Rattle.report_write.specs.TwoLinks.{two_refusal};

use spec_state::Clock;

// The number of the first cause among 10, 12, 13, given whether the state is well formed, then `number` where the
// call's own test holds.
pub fn two_links(
    well: bool,
    stage: u16,
    links: u16,
    first: u16,
    second: u16,
    number: u8,
    own: bool,
) -> u8
    ensures { result ≡ two_refusal well (eqb stage 11) links first second number own }
{
    if !well {
        return table_refusals::NOT_KEPT;
    }
    if stage != Clock::FINISHED {
        return table_refusals::BEFORE_END;
    }
    if links <= first {
        return table_refusals::NO_SUCH_NAME;
    }
    if links <= second {
        return table_refusals::NO_SUCH_NAME;
    }
    if own { number } else { 0 }
}
