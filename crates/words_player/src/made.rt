// One call on words.
ghost use Rattle.std.specs.Prelude.{◌≡◌};
ghost use Rattle.words_layout.specs.Layout.{state_of};
ghost use Rattle.spec_claim.specs.Play;
ghost use Rattle.words_player.specs.Played.{call_of, out_after, OneMade};

use words_layout::STATE_WORDS;

// The call of a kind with the number `a`; only a report writes to `out`.
pub(crate) fn call(state: &mut [u16; STATE_WORDS], kind: u16, a: u16, out: &mut [u8])
    ensures made { OneMade (call_of kind a out.old) state.old state.new }
    ensures bytes { out.new ≡ out_after kind out.old (state_of state.old) }
{
    match kind {
        1 => round(state),
        2 => run(state, a),
        4 => unit(state, a),
        5 => link(state, a),
        6 => report(state, out),
        _ => status(state),
    }
}

fn round(state: &mut [u16; STATE_WORDS])
    ensures { OneMade Play.round state.old state.new }
{
    words_calls::round(state);
}

fn run(state: &mut [u16; STATE_WORDS], budget: u16)
    ensures { OneMade (Play.run budget) state.old state.new }
{
    let mut made: u16 = 0;
    words_calls::run(state, budget, &mut made);
}

fn status(state: &[u16; STATE_WORDS])
    ensures { OneMade Play.status state.now state.now }
{
    let mut reply = [0; 4];
    words_calls::status(state, &mut reply);
}

fn unit(state: &[u16; STATE_WORDS], unit: u16)
    ensures { OneMade (Play.unit unit) state.now state.now }
{
    let mut reply = [0; 5];
    words_calls::unit(state, unit, &mut reply);
}

fn link(state: &[u16; STATE_WORDS], position: u16)
    ensures { OneMade (Play.link position) state.now state.now }
{
    let mut reply = [0; 3];
    words_calls::link(state, position, &mut reply);
}

fn report(state: &[u16; STATE_WORDS], out: &mut [u8])
    ensures made { OneMade (Play.report out.old) state.now state.now }
    ensures bytes { out.new
        ≡ Play.slice_after (Play.report out.old) (state_of state.now) }
{
    words_calls::report(state, out);
}
