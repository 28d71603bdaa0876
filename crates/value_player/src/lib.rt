// A list of calls, one after the other on the state that the last one left; demand 3 is about such lists
// (spec_claim/specs/Claim.antt).
#![tactic(auto)]

ghost use Rattle.std.specs.Prelude.{◌≡◌};
ghost use Rattle.survey.specs.View.{of};
ghost use Rattle.value_player.specs.Words.{play_words};

use survey::Survey;

mod made;
mod replies;

// The calls given as words, three a call (its kind and two numbers). The replies go to a lent table, eight words each,
// and the reports to parts of one lent slice. A call's words that are not whole make no call; a reply past the table is
// dropped.
pub fn play(survey: Survey, calls: &[u16], replies: &mut [u16], out: &mut [u8]) -> Survey
    ensures state { of result ≡ (play_words calls.now 0 (of survey) replies.old
        out.old).last }
    ensures answers { replies.new
        ≡ (play_words calls.now 0 (of survey) replies.old out.old).replies }
    ensures bytes { out.new
        ≡ (play_words calls.now 0 (of survey) replies.old out.old).out }
{
    let mut s = survey;
    for i in 0..calls.len() / 3 {
        let kind = base_slices::word(calls, 3 * i);
        let a = base_slices::word(calls, 3 * i + 1);
        let b = base_slices::word(calls, 3 * i + 2);
        let answer = made::call(s, kind, a, b, out);
        let reply = answer.reply;
        let after = answer.survey;
        replies::store(reply, 8 * i, replies);
        s = after;
    }
    s
}
