// The lifting order under the name that C has.
ghost use Rattle.std.specs.Prelude.{◌≡◌, length};
ghost use Rattle.survey.specs.View.{of};
ghost use Rattle.value_lifting.specs.Lifting.{lifting_answer, lifted, answer_of};

use survey::Survey;
use value_lifting::Answer;

// The order at the front of `out`: 10, 12, 14, 19, 20 (`value_lifting::lift`).
pub fn lifting_order<'a>(survey: Survey, pairs: &'a [u16], out: &mut [u16]) -> Answer
    ensures reply { answer_of result ≡ lifting_answer pairs.now (length out.old) (of survey) }
    ensures lent { out.new ≡ lifted pairs.now (of survey) out.old }
{
    value_lifting::lift(survey, pairs, out)
}
