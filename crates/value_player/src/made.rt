// One call, given as words.
ghost use Rattle.std.specs.Prelude.{◌≡◌, ◌++◌, min, length, take, drop};
ghost use Rattle.spec_machine.specs.Calls.{report_answer, reported};
ghost use Rattle.survey.specs.View.{of, answer_of};
ghost use Rattle.spec_claim.specs.Play.{answer_to};
ghost use Rattle.value_player.specs.Words.{part_from, part_to, part, call_of, out_after};

use survey::{Answer, Survey};

// The call of a kind with the numbers `a` and `b`; only a report writes to `out`.
pub(crate) fn call(s: Survey, kind: u16, a: u16, b: u16, out: &mut [u8]) -> Answer
    ensures answer { answer_of result ≡ answer_to (call_of kind a b out.old) (of s) }
    ensures bytes { out.new ≡ out_after kind a b out.old (of s) }
{
    match kind {
        1 => s.round(),
        2 => s.run(a),
        4 => value_calls::unit(s, a),
        5 => value_calls::link(s, a),
        6 => report_into(s, a, b, out),
        _ => s.status(),
    }
}

// A report into `places` places from `start` on, as far as the slice has them.
fn report_into(s: Survey, start: u16, places: u16, out: &mut [u8]) -> Answer
    ensures answer { answer_of result ≡ report_answer (length (part start places out.old)) (of s) }
    ensures bytes { out.new
        ≡ take (part_from start out.old) out.old
        ++ (reported (of s) (part start places out.old)
        ++ drop (part_to start places out.old) out.old) }
{
    let from = least(start as usize, out.len());
    let to = least(from + (places as usize), out.len());
    value_calls::report(s, &mut out[from..to])
}

fn least(x: usize, y: usize) -> usize
    ensures { result ≡ min x y }
{
    if x < y { x } else { y }
}
