// Why a question is turned down, and what is answered.
ghost use Rattle.std.specs.Prelude.{◌≡◌, true, [], ◌∷◌};
ghost use Rattle.spec_machine.specs.WellFormed.{well_formed};
ghost use Rattle.spec_machine.specs.Step.{countdown};
ghost use Rattle.spec_machine.specs.Report.{flag, unit_color, unit_parent, unit_place, unit_single, link_label};
ghost use Rattle.spec_machine.specs.Report.{link_lone};
ghost use Rattle.spec_machine.specs.Calls.{question_refusal};
ghost use Rattle.words_layout.specs.Layout.{state_of};

use super::STATE_WORDS;
use spec_state::Clock;

// The refusals of questions, as C has them.
pub(crate) const NOT_KEPT: u32 = table_refusals::NOT_KEPT as u32;

const BEFORE_END: u32 = table_refusals::BEFORE_END as u32;

const NO_SUCH_NAME: u32 = table_refusals::NO_SUCH_NAME as u32;

// The number of the first cause among 10, 12, 13, given whether the unit or position exists.
pub fn refusal(state: &[u16; STATE_WORDS], exists: bool) -> u32
    ensures { result ≡ question_refusal (state_of state.now) exists }
{
    if !words_layout::kept(state) {
        return NOT_KEPT;
    }
    if words_layout::clock_at(state).stage != Clock::FINISHED {
        return BEFORE_END;
    }
    if exists { 0 } else { NO_SUCH_NAME }
}

// Stage, countdown, all rounds, requests.
pub(crate) fn status_values(state: &[u16; STATE_WORDS]) -> [u16; 4]
    requires { well_formed (state_of state.now) ≡ true }
    ensures { result ≡ (state_of state.now).clock.stage ∷ countdown (state_of state.now)
        ∷ (state_of state.now).clock.rounds ∷ (state_of state.now).clock.requests ∷ [] }
{
    let table = words_layout::table_at(state);
    let c = words_layout::clock_at(state);
    let left = stage_clock::countdown(table.units, c.stage, c.made);
    [c.stage, left, c.rounds, c.requests]
}

// Unit, colour, parent, place, single.
pub(crate) fn unit_values(state: &[u16; STATE_WORDS], v: u16) -> [u16; 5]
    ensures { result ≡ v ∷ unit_color (state_of state.now) v ∷ unit_parent (state_of state.now) v
        ∷ unit_place (state_of state.now) v ∷ flag (unit_single (state_of state.now) v) ∷ [] }
{
    let i = v as usize;
    let components = words_layout::components_at(state);
    let tree = words_layout::tree_at(state);
    let order = words_layout::order_at(state);
    let color = base_slices::word(&components.color, i);
    let parent = base_slices::word(&tree.parent, i);
    let place = base_slices::word(&order.pre, i);
    [v, color, parent, place, single(state, v)]
}

fn single(state: &[u16; STATE_WORDS], v: u16) -> u16
    ensures { result ≡ flag (unit_single (state_of state.now) v) }
{
    let table = words_layout::table_at(state);
    let labels = words_layout::labels_at(state);
    word_of(report_flags::single(table.links, &table.ends, &labels.label, v))
}

// Position, label, lone.
pub(crate) fn link_values(state: &[u16; STATE_WORDS], j: u16) -> [u16; 3]
    ensures { result ≡ j ∷ link_label (state_of state.now) j
        ∷ flag (link_lone (state_of state.now) j) ∷ [] }
{
    let table = words_layout::table_at(state);
    let labels = words_layout::labels_at(state);
    let label = base_slices::word(&labels.label, j as usize);
    let lone = word_of(report_flags::lone(table.links, &labels.label, j));
    [j, label, lone]
}

// A flag as a word.
fn word_of(test: bool) -> u16
    ensures { result ≡ flag test }
{
    if test { 1 } else { 0 }
}
