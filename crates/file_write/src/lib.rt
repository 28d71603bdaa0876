// Survey files written: words and levels to bytes.
#![tactic(auto)]

ghost use Rattle.std.specs.Prelude.{◌≡◌, [], ◌∷◌, length};
ghost use Rattle.table.specs.Table.{link_count};
ghost use Rattle.file_spec.specs.File.{unless, file_length, write_refusal, write_reply, written_file, writing_number};
ghost use Rattle.file_spec.specs.File.{writing_values};

use file_spec::Writing;

mod writer;

// The file of a unit count, a table and its levels: a fresh table's refusals, 14. On a refusal no byte changes; bytes
// past the file stay.
pub fn write(units: u16, words: &[u16], levels: &[i16], out: &mut [u8]) -> Writing
    ensures reply { result ≡ write_reply units words.now levels.now
        (length out.old) }
    ensures lent { out.new
        ≡ written_file units words.now levels.now out.old }
    ensures number { writing_number result
        ≡ write_refusal units words.now levels.now (length out.old) }
    ensures values { writing_values result
        ≡ unless (write_refusal units words.now levels.now (length out.old))
        (file_length (link_count words.now) ∷ []) }
{
    let refused = writer::refusal(units, words, levels, out.len());
    if refused != 0 {
        return Writing::Refused(refused);
    }
    writer::lines(units, words, levels, out);
    Writing::Written((18 + 15 * (words.len() / 2)) as u32)
}
