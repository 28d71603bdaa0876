// What the change requests ask, for callers in C: rings, doubtful links, the lifting order, one-way links.
ghost use Rattle.std.specs.Prelude.{◌≡◌, length};
ghost use Rattle.words_layout.specs.Layout.{state_of};
ghost use Rattle.words_calls.specs.FileFace.{word_said};
ghost use Rattle.theory_min_label.specs.MinLabel.{min_label};
ghost use Rattle.one_way.specs.Numbering.{strong_refusal, strong_numbers};
ghost use Rattle.value_lifting.specs.Lifting.{number_of, lifting_answer, lifted};
ghost use Rattle.words_requests.specs.RingSaid.{RingSaid};
ghost use Rattle.words_requests.specs.DoubtSaid.{DoubtSaid};

use words_layout::STATE_WORDS;

// A ring through two links (T-04): 10, 12, 13, 14. Its units go to the front of `out`, their number to `count`, 0 where
// there is none.
#[unsafe(no_mangle)]
pub extern "C" fn link_survey_ring(
    state: &[u16; STATE_WORDS],
    first: u16,
    second: u16,
    out: &mut [u16],
    count: &mut u16,
) -> u32
    ensures { RingSaid first second (state_of state.now) out.old count.old
        out.new count.new result }
{
    words_requests::ring(state, first, second, out, count)
}

// The lifting order at the front of `out` (T-07): 10, 12, 14, 19, 20.
#[unsafe(no_mangle)]
pub extern "C" fn link_survey_lifting_order<'a>(
    state: &'a [u16; STATE_WORDS],
    pairs: &'a [u16],
    out: &mut [u16],
) -> u32
    ensures number { result ≡ number_of
        (lifting_answer pairs.now (length out.old) (state_of state.now)).reply }
    ensures order { out.new
        ≡ lifted pairs.now (state_of state.now) out.old }
{
    words_requests::lift(state, pairs, out)
}

// Doubtful links (T-08): 10, 12, 13, 15. The verdict, 2 always, 1 perhaps, 0 never, goes to `verdict`.
#[unsafe(no_mangle)]
pub extern "C" fn link_survey_doubtful<'a>(
    state: &'a [u16; STATE_WORDS],
    first: u16,
    second: u16,
    marks: &'a [u8],
    verdict: &mut u16,
) -> u32
    ensures { DoubtSaid first second marks.now (state_of state.now) verdict.old
        verdict.new result }
{
    words_requests::doubt(state, first, second, marks, verdict)
}

// No state: one-way links (T-11): 4 to 9 of ordered pairs, 14. The numbers go to the front of `numbers`, the passes to
// `passes`.
#[unsafe(no_mangle)]
pub extern "C" fn link_survey_one_way(
    units: u16,
    table: &[u16],
    numbers: &mut [u16],
    passes: &mut u16,
) -> u32
    ensures number { result ≡ strong_refusal units table.now (length numbers.old) }
    ensures numbers { numbers.new ≡ strong_numbers units table.now numbers.old }
    ensures passes { passes.new
        ≡ word_said (strong_refusal units table.now (length numbers.old))
        (min_label units table.now numbers.old).1 passes.old }
{
    words_requests::strong(units, table, numbers, passes)
}
