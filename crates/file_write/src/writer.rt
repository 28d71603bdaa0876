// Writing a file: why it is refused, and its lines, each over the front of what is left of the slice.
ghost use Rattle.std.specs.Prelude.{◌≡◌, ◌++◌, ◌*◌, ◌≤◌, length, drop};
ghost use Rattle.table.specs.Table.{link_count};
ghost use Rattle.file_spec.specs.File.{link_lines, file_of, file_length, write_refusal};
ghost use Rattle.file_write.specs.WriteLaws.{Levelled};

use file_frames::{kinds, line};

// The number of the first cause, of a fresh table's and 14; 0 where there is none.
pub(crate) fn refusal(units: u16, words: &[u16], levels: &[i16], places: usize) -> u8
    ensures { result ≡ write_refusal units words.now levels.now places }
{
    let refused = table::refusal(true, units, words, levels);
    if refused != 0 {
        return refused;
    }
    if places < 18 + 15 * (words.len() / 2) {
        return table_refusals::TOO_SHORT;
    }
    0
}

// The lines of all links, in order.
fn link_lines(words: &[u16], levels: &[i16], out: &mut [u8])
    requires { Levelled words.now levels.now × (15 * link_count words.now ≤ length out.old) }
    ensures { out.new ≡ link_lines words.now levels.now
        ++ drop (15 * link_count words.now) out.old }
{
    let mut j = 0;
    while j < levels.len() {
        let at = 15 * j;
        let a = base_slices::word(words, 2 * j);
        let b = base_slices::word(words, 2 * j + 1);
        let level = levels[j];
        let byte = table_levels::byte_of(level);
        line::two_numbers_and_byte(kinds::LINK, a, b, byte, &mut out[at..]);
        j += 1;
    }
}

// The lines of the whole file.
pub(crate) fn lines(units: u16, words: &[u16], levels: &[i16], out: &mut [u8])
    requires { Levelled words.now levels.now × (file_length (link_count words.now) ≤ length out.old) }
    ensures { out.new ≡ file_of units words.now levels.now
        ++ drop (file_length (link_count words.now)) out.old }
{
    let links = words.len() / 2;
    let end = 9 + 15 * links;
    line::one_number(kinds::UNITS, units, out);
    link_lines(words, levels, &mut out[9..]);
    line::one_number(kinds::END, links as u16, &mut out[end..]);
}
