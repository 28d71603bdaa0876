// Rounds and runs on the words of a state.
#![tactic(auto)]

mod back;
mod front;

ghost use Rattle.std.specs.Prelude.{◌≡◌, true, cond, ◌≤◌, eqb};
ghost use Rattle.spec_machine.specs.WellFormed.{well_formed};
ghost use Rattle.spec_machine.specs.Run.{ran};
ghost use Rattle.spec_machine.specs.StageSteps.{Moved};
ghost use Rattle.spec_machine.specs.Calls.{number_of, round_refusal, round_answer, run_answer};
ghost use Rattle.words_layout.specs.Layout.{state_of};

use spec_state::Clock;
use words_layout::STATE_WORDS;

// The number of a state that is not kept, and of a finished one.
const NOT_KEPT: u32 = 10;

const IS_FINISHED: u32 = 11;

// One round: 10, 11. It calls the stages by itself: what has two callers keeps a frame of its own on the stack, so that
// the tables of a leap do not stand beside those of stages that are not at work.
pub fn round(words: &mut [u16; STATE_WORDS]) -> u32
    ensures number { result ≡ number_of (round_answer (state_of words.old)).reply }
    ensures words { state_of words.new ≡ (round_answer (state_of words.old)).state }
{
    let refused = refusal(words);
    if refused != 0 {
        return refused;
    }
    let stage = words_layout::clock_at(words).stage;
    if stage == 1 {
        front::components_stage(words, 1);
        return 0;
    }
    if stage == 2 {
        front::tree_stage(words, 1);
        return 0;
    }
    if stage == 9 {
        back::classes_stage(words, 1);
        return 0;
    }
    if stage < 7 {
        front::rounds(stage, words, 1);
        return 0;
    }
    back::rounds(stage, words, 1);
    0
}

// At most `budget` rounds: 10, 11. The rounds made go to `made`.
pub fn run(words: &mut [u16; STATE_WORDS], budget: u16, made: &mut u16) -> u32
    ensures number { result ≡ number_of (run_answer budget (state_of words.old)).reply }
    ensures words { state_of words.new ≡ (run_answer budget (state_of words.old)).state }
    ensures made { made.new
        ≡ cond (eqb (round_refusal (state_of words.old)) 0) (ran budget 0 (state_of words.old)).1
        made.old }
{
    let refused = refusal(words);
    if refused != 0 {
        return refused;
    }
    *made = go(words, budget);
    0
}

// Why no round may be made: 10, 11, else 0.
fn refusal(words: &[u16; STATE_WORDS]) -> u32
    ensures { result ≡ round_refusal (state_of words.now) }
{
    if !words_layout::kept(words) {
        return NOT_KEPT;
    }
    if words_layout::clock_at(words).stage == Clock::FINISHED {
        IS_FINISHED
    } else {
        0
    }
}

// At most `budget` rounds, and how many were made.
fn go(words: &mut [u16; STATE_WORDS], budget: u16) -> u16
    requires { well_formed (state_of words.old) ≡ true }
    ensures { ran budget 0 (state_of words.old) ≡ (state_of words.new, result) }
{
    let mut made: u16 = 0;
    while made < budget {
        let stage = words_layout::clock_at(words).stage;
        if 10 < stage {
            return made;
        }
        if stage == 1 {
            made += front::components_stage(words, budget - made);
            continue;
        }
        if stage == 2 {
            made += front::tree_stage(words, budget - made);
            continue;
        }
        if stage == 9 {
            made += back::classes_stage(words, budget - made);
            continue;
        }
        if stage < 7 {
            made += front::rounds(stage, words, budget - made);
            continue;
        }
        made += back::rounds(stage, words, budget - made);
    }
    made
}
