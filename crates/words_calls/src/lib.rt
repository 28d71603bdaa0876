// The calls on a state in words that the caller lends (words_layout/specs/Layout.antt). A number that comes back is
// document 01's number of the refusal, 0 where the call was not refused; on a refusal nothing lent is altered. What a
// call leaves in the words is settled word for word (words_known/specs/Left.antt).
#![tactic(auto)]

mod file_calls;
mod questions;

ghost use Rattle.std.specs.Prelude.{◌≡◌, cond, eqb, length};
ghost use Rattle.spec_machine.specs.Run.{ran};
ghost use Rattle.spec_machine.specs.Calls.{number_of, load_answer, stored_load_answer, planned_load_answer};
ghost use Rattle.spec_machine.specs.Calls.{status_answer};
ghost use Rattle.spec_machine.specs.Calls.{round_refusal, round_answer, run_answer, unit_answer, link_answer};
ghost use Rattle.spec_machine.specs.Calls.{report_answer};
ghost use Rattle.spec_machine.specs.Calls.{reported};
ghost use Rattle.words_layout.specs.Layout.{state_of};
ghost use Rattle.words_known.specs.Left.{Left};
ghost use Rattle.words_calls.specs.Face.{said};

pub use file_calls::{read, write};
pub use questions::refusal;
use words_layout::STATE_WORDS;

// Load, of a fresh table: 4 to 6, 15, 16, 7 to 9, 22.
pub fn load(state: &mut [u16; STATE_WORDS], units: u16, table: &[u16], levels: &[i16]) -> u32
    ensures number { result ≡ number_of
        (load_answer (record { units = units; words = table.now; levels = levels.now })
        (state_of state.old)).reply }
    ensures left { Left state.old state.new
        (load_answer (record { units = units; words = table.now; levels = levels.now })
        (state_of state.old)) }
{
    words_known::state(state);
    let number = words_load::load(units, table, levels, state);
    words_known::state(state);
    number as u32
}

// Load of a stored table: 4 to 6, 15, 16, 7 to 9.
pub fn load_stored(state: &mut [u16; STATE_WORDS], units: u16, table: &[u16], levels: &[i16]) -> u32
    ensures number { result ≡ number_of
        (stored_load_answer (record { units = units; words = table.now; levels = levels.now })
        (state_of state.old)).reply }
    ensures left { Left state.old state.new
        (stored_load_answer (record { units = units; words = table.now; levels = levels.now })
        (state_of state.old)) }
{
    words_known::state(state);
    let number = words_load::load_stored(units, table, levels, state);
    words_known::state(state);
    number as u32
}

// Load with a table of parents drawn by the planner: 4 to 6, 15, 16, 7 to 9, 17, 18, 22.
pub fn load_planned(
    state: &mut [u16; STATE_WORDS],
    units: u16,
    table: &[u16],
    levels: &[i16],
    parents: &[u16],
) -> u32
    ensures number { result ≡ number_of
        (planned_load_answer (record { units = units; words = table.now; levels = levels.now })
        parents.now (state_of state.old)).reply }
    ensures left { Left state.old state.new
        (planned_load_answer (record { units = units; words = table.now; levels = levels.now })
        parents.now (state_of state.old)) }
{
    words_known::state(state);
    let number = words_load::load_planned(units, table, levels, parents, state);
    words_known::state(state);
    number as u32
}

// One round: 10, 11.
pub fn round(state: &mut [u16; STATE_WORDS]) -> u32
    ensures number { result ≡ number_of (round_answer (state_of state.old)).reply }
    ensures left { Left state.old state.new (round_answer (state_of state.old)) }
{
    words_known::state(state);
    let number = words_run::round(state);
    words_known::state(state);
    number
}

// At most `budget` rounds: 10, 11. The rounds made go to `made`.
pub fn run(state: &mut [u16; STATE_WORDS], budget: u16, made: &mut u16) -> u32
    ensures number { result ≡ number_of (run_answer budget (state_of state.old)).reply }
    ensures left { Left state.old state.new
        (run_answer budget (state_of state.old)) }
    ensures made { made.new
        ≡ cond (eqb (round_refusal (state_of state.old)) 0) (ran budget 0 (state_of state.old)).1
        made.old }
{
    words_known::state(state);
    let number = words_run::run(state, budget, made);
    words_known::state(state);
    number
}

// Status: 10. The reply is stage, countdown, all rounds, requests.
pub fn status(state: &[u16; STATE_WORDS], reply: &mut [u16; 4]) -> u32
    ensures number { result ≡ number_of (status_answer (state_of state.now)).reply }
    ensures said { reply.new
        ≡ said (status_answer (state_of state.now)).reply reply.old }
{
    if !words_layout::kept(state) {
        return questions::NOT_KEPT;
    }
    *reply = questions::status_values(state);
    0
}

// A unit: 10, 12, 13. The reply is unit, colour, parent, place, single.
pub fn unit(state: &[u16; STATE_WORDS], unit: u16, reply: &mut [u16; 5]) -> u32
    ensures number { result ≡ number_of (unit_answer unit (state_of state.now)).reply }
    ensures said { reply.new
        ≡ said (unit_answer unit (state_of state.now)).reply reply.old }
{
    let table = words_layout::table_at(state);
    let refused = questions::refusal(state, unit < table.units);
    if refused != 0 {
        return refused;
    }
    *reply = questions::unit_values(state, unit);
    0
}

// A link: 10, 12, 13. The reply is position, label, lone.
pub fn link(state: &[u16; STATE_WORDS], position: u16, reply: &mut [u16; 3]) -> u32
    ensures number { result ≡ number_of (link_answer position (state_of state.now)).reply }
    ensures said { reply.new
        ≡ said (link_answer position (state_of state.now)).reply reply.old }
{
    let table = words_layout::table_at(state);
    let refused = questions::refusal(state, position < table.links);
    if refused != 0 {
        return refused;
    }
    *reply = questions::link_values(state, position);
    0
}

// The report of a finished survey at the front of `out`: 10, 12, 14.
pub fn report(state: &[u16; STATE_WORDS], out: &mut [u8]) -> u32
    ensures number { result ≡ number_of
        (report_answer (length out.old) (state_of state.now)).reply }
    ensures bytes { out.new ≡ reported (state_of state.now) out.old }
{
    let table = words_layout::table_at(state);
    let c = words_layout::clock_at(state);
    let refused = report_write::report_refusal(
        words_layout::kept(state),
        c.stage,
        table.units,
        table.links,
        out.len(),
    );
    if refused != 0 {
        return refused as u32;
    }
    let labels = words_layout::labels_at(state);
    let components = words_layout::components_at(state);
    let tree = words_layout::tree_at(state);
    let order = words_layout::order_at(state);
    report_write::report_lines(
        table.units,
        table.links,
        c.rounds,
        c.requests,
        &table.ends,
        &labels.label,
        &components.color,
        &tree.parent,
        &order.pre,
        out,
    );
    0
}
