// What the change requests ask, on memory that the caller lends. A number that comes back is that of the refusal, 0
// where the call was not refused; on a refusal nothing lent is altered.
#![tactic(auto)]

ghost use Rattle.std.specs.Prelude.{◌≡◌, length, get_or};
ghost use Rattle.spec_machine.specs.State.{finished};
ghost use Rattle.spec_machine.specs.WellFormed.{well_formed};
ghost use Rattle.report_write.specs.TwoLinks.{two_refusal};
ghost use Rattle.words_layout.specs.Layout.{state_of};
ghost use Rattle.words_calls.specs.FileFace.{word_said};
ghost use Rattle.theory_min_label.specs.MinLabel.{min_label};
ghost use Rattle.one_way.specs.Numbering.{strong_refusal, strong_numbers};
ghost use Rattle.value_lifting.specs.Lifting.{number_of, lifting_answer, lifted};
ghost use Rattle.value_doubtful.specs.Doubtful.{values_of};
ghost use Rattle.words_requests.specs.RingSaid.{RingSaid};
ghost use Rattle.words_requests.specs.DoubtSaid.{DoubtSaid};

use one_way::Numbering;
use value_doubtful::Verdict;
use words_layout::STATE_WORDS;

// The numbers of one-way links at the front of `numbers`, and the passes (T-11): 4 to 9 of ordered pairs, 14. No state
// plays a part.
pub fn strong(units: u16, links: &[u16], numbers: &mut [u16], passes: &mut u16) -> u32
    ensures number { result ≡ strong_refusal units links.now (length numbers.old) }
    ensures lent { numbers.new ≡ strong_numbers units links.now numbers.old }
    ensures passes { passes.new
        ≡ word_said (strong_refusal units links.now (length numbers.old))
        (min_label units links.now numbers.old).1 passes.old }
{
    let told = one_way::strong(units, links, numbers);
    match told {
        Numbering::Refused(number) => number as u32,
        Numbering::Passes(made) => {
            *passes = made;
            0
        }
    }
}

// The lifting order of a finished survey at the front of `out` (T-07): 10, 12, 14, 19, 20.
pub fn lift<'a>(state: &'a [u16; STATE_WORDS], pairs: &'a [u16], out: &mut [u16]) -> u32
    ensures number { result ≡ number_of
        (lifting_answer pairs.now (length out.old) (state_of state.now)).reply }
    ensures order { out.new
        ≡ lifted pairs.now (state_of state.now) out.old }
{
    let early = words_calls::refusal(state, true);
    if early != 0 {
        return early;
    }
    let table = words_layout::table_at(state);
    lifting_order::write(table.units, table.links, &table.ends, pairs, out) as u32
}

// Why a call that names two links is refused: 10, 12, 13, then `number` where the call's own test holds.
fn two_links(
    state: &[u16; STATE_WORDS],
    links: u16,
    first: u16,
    second: u16,
    number: u8,
    own: bool,
) -> u32
    ensures { result ≡ two_refusal (well_formed (state_of state.now))
        (finished (state_of state.now)) links first second number own }
{
    let clock = words_layout::clock_at(state);
    let well = words_layout::kept(state);
    report_write::two_links(well, clock.stage, links, first, second, number, own) as u32
}

// The units of a ring of a finished survey that holds both links at the front of `out`, and their number, 0 where there
// is none (T-04): 10, 12, 13, 14.
pub fn ring(
    state: &[u16; STATE_WORDS],
    first: u16,
    second: u16,
    out: &mut [u16],
    count: &mut u16,
) -> u32
    ensures { RingSaid first second (state_of state.now) out.old count.old
        out.new count.new result }
{
    let table = words_layout::table_at(state);
    let short = out.len() < table.units as usize;
    let refused = two_links(state, table.links, first, second, 14, short);
    if refused != 0 {
        return refused;
    }
    *count = value_ring::lay_ring(table.units, table.links, &table.ends, first, second, out);
    0
}

// The word of a verdict: 2 always, 1 perhaps, 0 never.
fn word_of(told: Verdict) -> u16
    ensures { result ≡ get_or (values_of told) 0 0 }
{
    match told {
        Verdict::Always => 2,
        Verdict::Perhaps => 1,
        Verdict::Never => 0,
        Verdict::Refused(_) => 0,
    }
}

// Whether a ring holds two links of a finished survey however many of the doubtful ones are absent (T-08), by a byte a
// link, 0 for a sure one: 10, 12, 13, 15.
pub fn doubt<'a>(
    state: &'a [u16; STATE_WORDS],
    first: u16,
    second: u16,
    marks: &'a [u8],
    verdict: &mut u16,
) -> u32
    ensures { DoubtSaid first second marks.now (state_of state.now) verdict.old
        verdict.new result }
{
    let table = words_layout::table_at(state);
    let differ = marks.len() != table.links as usize;
    let refused = two_links(state, table.links, first, second, 15, differ);
    if refused != 0 {
        return refused;
    }
    let told = value_doubtful::judged(marks, table.units, table.links, &table.ends, first, second);
    *verdict = word_of(told);
    0
}
