// Survey files in memory that the caller lends: no state plays a part. A number that comes back is document 01's number
// of the refusal, 0 where the call was not refused; on a refusal nothing lent is altered.
ghost use Rattle.std.specs.Prelude.{◌≡◌, length};
ghost use Rattle.file_spec.specs.File.{lines_of, units_in, link_frames, read_refusal, read_words, read_levels};
ghost use Rattle.file_spec.specs.File.{write_refusal};
ghost use Rattle.file_spec.specs.File.{written_file};
ghost use Rattle.words_calls.specs.FileFace.{word_said};

use file_spec::{Reading, Writing};

// A file's ends to the front of `words` and its levels to the front of `levels`, its unit count and its number of
// links: 1, 2, 3, 6, 16, 14. What stands past the last link stays.
pub fn read(
    file: &[u8],
    words: &mut [u16],
    levels: &mut [i16],
    units: &mut u16,
    links: &mut u16,
) -> u32
    ensures number { result ≡ read_refusal (lines_of file.now) (length words.old)
        (length levels.old) }
    ensures words { words.new
        ≡ read_words file.now words.old (length levels.old) }
    ensures levels { levels.new
        ≡ read_levels file.now (length words.old) levels.old }
    ensures units { units.new
        ≡ word_said (read_refusal (lines_of file.now) (length words.old)
        (length levels.old)) (units_in (lines_of file.now)) units.old }
    ensures links { links.new
        ≡ word_said (read_refusal (lines_of file.now) (length words.old)
        (length levels.old)) (link_frames (lines_of file.now)) links.old }
{
    let found = file_read::read(file, words, levels);
    match found {
        Reading::Refused(number) => number as u32,
        Reading::Read { units: n, links: m } => {
            *units = n;
            *links = m;
            0
        }
    }
}

// The file of a unit count, a table and its levels at the front of `out`: 4 to 6, 15, 16, 7 to 9, 22, 14. Bytes past it
// stay.
pub fn write(units: u16, words: &[u16], levels: &[i16], out: &mut [u8]) -> u32
    ensures number { result ≡ write_refusal units words.now levels.now
        (length out.old) }
    ensures bytes { out.new
        ≡ written_file units words.now levels.now out.old }
{
    let done = file_write::write(units, words, levels, out);
    match done {
        Writing::Refused(number) => number as u32,
        Writing::Written(_) => 0,
    }
}
