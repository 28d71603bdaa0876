// Calls on words, one after the other, by the very functions that C gets: what comes back from each is an exchange of
// words_claim/specs/Exchange.antt, and so demand 3 holds of the list by their contracts.
#![tactic(auto)]

mod made;

ghost use Rattle.std.specs.Prelude.{◌≡◌, cond, eqb};
ghost use Rattle.spec_machine.specs.Load.{loaded};
ghost use Rattle.spec_machine.specs.Calls.{number_of, load_answer};
ghost use Rattle.words_layout.specs.Layout.{state_of};
ghost use Rattle.words_player.specs.Played.{calls_in, out_in, AllMade, Claimed, ClaimedFrom};

use words_layout::STATE_WORDS;

// The calls given as words, two a call (its kind and a number), a report into `out`. Words that are not a whole call
// make none.
pub fn play(state: &mut [u16; STATE_WORDS], calls: &[u16], out: &mut [u8])
    ensures made { AllMade (calls_in calls.now (state_of state.old) out.old)
        state.old state.new }
    ensures claim { Claimed (calls_in calls.now (state_of state.old) out.old)
        state.old state.new }
    ensures bytes { out.new
        ≡ out_in calls.now (state_of state.old) out.old }
{
    for i in 0..calls.len() / 2 {
        let kind = base_slices::word(calls, 2 * i);
        let a = base_slices::word(calls, 2 * i + 1);
        made::call(state, kind, a, out);
    }
}

// A load of a fresh table, and then the calls. The number of the load; where it is 0, demand 3 of all that followed.
pub fn surveyed(
    state: &mut [u16; STATE_WORDS],
    units: u16,
    table: &[u16],
    levels: &[i16],
    calls: &[u16],
    out: &mut [u8],
) -> u32
    ensures number { result ≡ number_of
        (load_answer (record { units = units; words = table.now; levels = levels.now })
        (state_of state.old)).reply }
    ensures claim { result ≡ 0 →
        ClaimedFrom (record { units = units; words = table.now; levels = levels.now })
        calls.now out.old state.new }
    ensures bytes { out.new ≡ cond (eqb result 0) (out_in calls.now
        (loaded (record { units = units; words = table.now; levels = levels.now }))
        out.old) out.old }
    ensures refused { (result ≡ 0 → ⊥) → state.new ≡ state.old }
{
    let number = words_calls::load(state, units, table, levels);
    if number != 0 {
        return number;
    }
    play(state, calls, out);
    0
}
