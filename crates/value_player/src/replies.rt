// A reply as eight words.
ghost use Rattle.std.specs.Prelude.{◌≡◌, ◌+◌, ◌<◌, ◌^◌};
ghost use Rattle.std.proofs.lemmas.List.Edits.{sets};
ghost use Rattle.value_player.specs.Words.{encoded};

use survey::Reply;

// Laid down from `at` on, as far as the table goes.
pub(crate) fn store(reply: Reply, at: usize, replies: &mut [u16])
    requires { at + 8 < 2 ^ 64 }
    ensures { replies.new ≡ sets replies.old at (encoded reply) }
{
    put_eight(eight(reply), at, replies);
}

// Its kind, its values, and zeros.
fn eight(reply: Reply) -> [u16; 8]
    ensures { result ≡ encoded reply }
{
    match reply {
        Reply::Refused(number) => [0, number as u16, 0, 0, 0, 0, 0, 0],
        Reply::Done => [1, 0, 0, 0, 0, 0, 0, 0],
        Reply::Made(rounds) => [2, rounds, 0, 0, 0, 0, 0, 0],
        Reply::Status {
            stage,
            countdown,
            rounds,
            requests,
        } => [3, stage, countdown, rounds, requests, 0, 0, 0],
        Reply::Unit {
            unit,
            color,
            parent,
            place,
            single,
        } => [4, unit, color, parent, place, single as u16, 0, 0],
        Reply::Link {
            position,
            label,
            lone,
        } => [5, position, label, lone as u16, 0, 0, 0, 0],
        Reply::Read { units, links } => [6, units, links, 0, 0, 0, 0, 0],
        Reply::Written(characters) => [
            7,
            (characters / 65536) as u16,
            (characters % 65536) as u16,
            0,
            0,
            0,
            0,
            0,
        ],
    }
}

fn put_eight(words: [u16; 8], at: usize, replies: &mut [u16])
    requires { at + 8 < 2 ^ 64 }
    ensures { replies.new ≡ sets replies.old at words }
{
    for k in 0..8 {
        base_slices::put(replies, at + k, words[k]);
    }
}
