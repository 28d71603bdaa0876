// The survey for callers in C: the state is an array of words that the caller lends (words_layout/specs/Layout.antt), a
// reply an array of its fixed size. A number that comes back is document 01's number of the refusal, 0 where the call
// was not refused; on a refusal nothing lent is altered. What a call leaves in a state's words is settled word for word
// (words_known/specs/Left.antt).
#![tactic(auto)]

mod asked;
mod live_tables;
mod seats;
mod version;

ghost use Rattle.std.specs.Prelude.{◌≡◌, length};
ghost use Rattle.spec_machine.specs.Calls.{number_of, load_answer, stored_load_answer, planned_load_answer};
ghost use Rattle.words_layout.specs.Layout.{state_of};
ghost use Rattle.words_known.specs.Left.{Left};
ghost use Rattle.file_spec.specs.File.{lines_of, units_in, link_frames, read_refusal, read_words, read_levels};
ghost use Rattle.file_spec.specs.File.{write_refusal};
ghost use Rattle.file_spec.specs.File.{written_file};
ghost use Rattle.words_calls.specs.FileFace.{word_said};
ghost use Rattle.spec_claim.specs.Play;
ghost use Rattle.words_claim.specs.Exchange.{number_to, lent_after, made_after};
ghost use Rattle.report_program.specs.Printed.{printed, laid_over, laid_count};
ghost use Rattle.handset_lines.specs.Lines.{foreman_answer, foreman_shown, service_answer, service_shown};

use words_layout::STATE_WORDS;

// No state: what the program prints for the bytes of a file, at the front of `out`, and the number of bytes; nothing
// and 0 where `out` is too short.
#[unsafe(no_mangle)]
pub extern "C" fn link_survey_report(input: &[u8], out: &mut [u8]) -> u32
    ensures count { result ≡ laid_count (printed input.now) (length out.old) }
    ensures bytes { out.new ≡ laid_over (printed input.now) out.old }
{
    words_report::report(input, out)
}

// Load, of a fresh table: 4 to 6, 15, 16, 7 to 9, 22.
#[unsafe(no_mangle)]
pub extern "C" fn link_survey_load(
    state: &mut [u16; STATE_WORDS],
    units: u16,
    table: &[u16],
    levels: &[i16],
) -> u32
    ensures number { result ≡ number_of
        (load_answer (record { units = units; words = table.now; levels = levels.now })
        (state_of state.old)).reply }
    ensures left { Left state.old state.new
        (load_answer (record { units = units; words = table.now; levels = levels.now })
        (state_of state.old)) }
{
    words_calls::load(state, units, table, levels)
}

// Load of a stored table: 4 to 6, 15, 16, 7 to 9.
#[unsafe(no_mangle)]
pub extern "C" fn link_survey_load_stored(
    state: &mut [u16; STATE_WORDS],
    units: u16,
    table: &[u16],
    levels: &[i16],
) -> u32
    ensures number { result ≡ number_of
        (stored_load_answer (record { units = units; words = table.now; levels = levels.now })
        (state_of state.old)).reply }
    ensures left { Left state.old state.new
        (stored_load_answer (record { units = units; words = table.now; levels = levels.now })
        (state_of state.old)) }
{
    words_calls::load_stored(state, units, table, levels)
}

// Load with a table of parents drawn by the planner: 4 to 6, 15, 16, 7 to 9, 17, 18, 22.
#[unsafe(no_mangle)]
pub extern "C" fn link_survey_load_planned(
    state: &mut [u16; STATE_WORDS],
    units: u16,
    table: &[u16],
    levels: &[i16],
    parents: &[u16],
) -> u32
    ensures number { result ≡ number_of
        (planned_load_answer (record { units = units; words = table.now; levels = levels.now })
        parents.now (state_of state.old)).reply }
    ensures left { Left state.old state.new
        (planned_load_answer (record { units = units; words = table.now; levels = levels.now })
        parents.now (state_of state.old)) }
{
    words_calls::load_planned(state, units, table, levels, parents)
}

// One round: 10, 11.
#[unsafe(no_mangle)]
pub extern "C" fn link_survey_round(state: &mut [u16; STATE_WORDS]) -> u32
    ensures number { result ≡ number_to Play.round state.old }
    ensures left { Left state.old state.new
        (Play.answer_to Play.round (state_of state.old)) }
{
    words_calls::round(state)
}

// At most `budget` rounds: 10, 11. The rounds made go to `made`.
#[unsafe(no_mangle)]
pub extern "C" fn link_survey_run(
    state: &mut [u16; STATE_WORDS],
    budget: u16,
    made: &mut u16,
) -> u32
    ensures number { result ≡ number_to (Play.run budget) state.old }
    ensures left { Left state.old state.new
        (Play.answer_to (Play.run budget) (state_of state.old)) }
    ensures made { made.new ≡ made_after budget state.old made.old }
{
    words_calls::run(state, budget, made)
}

// Status: 10. The reply is stage, countdown, all rounds, requests.
#[unsafe(no_mangle)]
pub extern "C" fn link_survey_status(state: &[u16; STATE_WORDS], reply: &mut [u16; 4]) -> u32
    ensures number { result ≡ number_to Play.status state.now }
    ensures said { reply.new ≡ lent_after Play.status state.now reply.old }
{
    words_calls::status(state, reply)
}

// A unit: 10, 12, 13. The reply is unit, colour, parent, place, single.
#[unsafe(no_mangle)]
pub extern "C" fn link_survey_unit(
    state: &[u16; STATE_WORDS],
    unit: u16,
    reply: &mut [u16; 5],
) -> u32
    ensures number { result ≡ number_to (Play.unit unit) state.now }
    ensures said { reply.new ≡ lent_after (Play.unit unit) state.now reply.old }
{
    words_calls::unit(state, unit, reply)
}

// A link: 10, 12, 13. The reply is position, label, lone.
#[unsafe(no_mangle)]
pub extern "C" fn link_survey_link(
    state: &[u16; STATE_WORDS],
    position: u16,
    reply: &mut [u16; 3],
) -> u32
    ensures number { result ≡ number_to (Play.link position) state.now }
    ensures said { reply.new
        ≡ lent_after (Play.link position) state.now reply.old }
{
    words_calls::link(state, position, reply)
}

// The report of a finished survey at the front of `out`: 10, 12, 14.
#[unsafe(no_mangle)]
pub extern "C" fn link_survey_state_report(state: &[u16; STATE_WORDS], out: &mut [u8]) -> u32
    ensures number { result ≡ number_to (Play.report out.old) state.now }
    ensures bytes { out.new
        ≡ lent_after (Play.report out.old) state.now out.old }
{
    words_calls::report(state, out)
}

// The foreman's line at the front of `out`, at every stage (T-06): 10, 14.
#[unsafe(no_mangle)]
pub extern "C" fn link_survey_foreman_line(state: &[u16; STATE_WORDS], out: &mut [u8]) -> u32
    ensures number { result ≡ number_of
        (foreman_answer (length out.old) (state_of state.now)).reply }
    ensures bytes { out.new ≡ foreman_shown (state_of state.now) out.old }
{
    words_handsets::foreman_line(state, out)
}

// The service line, in the same way: 10, 14.
#[unsafe(no_mangle)]
pub extern "C" fn link_survey_service_line(state: &[u16; STATE_WORDS], out: &mut [u8]) -> u32
    ensures number { result ≡ number_of
        (service_answer (length out.old) (state_of state.now)).reply }
    ensures bytes { out.new ≡ service_shown (state_of state.now) out.old }
{
    words_handsets::service_line(state, out)
}

// No state: the ends of a file to the front of `table` and its levels to the front of `levels`, its unit count and its
// number of links: 1, 2, 3, 6, 16, 14.
#[unsafe(no_mangle)]
pub extern "C" fn link_survey_read(
    input: &[u8],
    table: &mut [u16],
    levels: &mut [i16],
    units: &mut u16,
    links: &mut u16,
) -> u32
    ensures number { result ≡ read_refusal (lines_of input.now) (length table.old)
        (length levels.old) }
    ensures words { table.new
        ≡ read_words input.now table.old (length levels.old) }
    ensures levels { levels.new
        ≡ read_levels input.now (length table.old) levels.old }
    ensures units { units.new
        ≡ word_said (read_refusal (lines_of input.now) (length table.old)
        (length levels.old)) (units_in (lines_of input.now)) units.old }
    ensures links { links.new
        ≡ word_said (read_refusal (lines_of input.now) (length table.old)
        (length levels.old)) (link_frames (lines_of input.now)) links.old }
{
    words_calls::read(input, table, levels, units, links)
}

// No state: the file of a unit count, a table and its levels at the front of `out`: 4 to 6, 15, 16, 7 to 9, 22, 14.
#[unsafe(no_mangle)]
pub extern "C" fn link_survey_write(
    units: u16,
    table: &[u16],
    levels: &[i16],
    out: &mut [u8],
) -> u32
    ensures number { result ≡ write_refusal units table.now levels.now
        (length out.old) }
    ensures bytes { out.new
        ≡ written_file units table.now levels.now out.old }
{
    words_calls::write(units, table, levels, out)
}
