// Survey files read: bytes to words and levels.
#![tactic(auto)]

ghost use Rattle.std.specs.Prelude.{◌≡◌, [], ◌∷◌, length};
ghost use Rattle.file_spec.specs.File.{unless, lines_of, units_in, link_frames, read_refusal, read_reply, read_words};
ghost use Rattle.file_spec.specs.File.{read_levels, reading_number, reading_values};

use file_spec::Reading;

mod judge;
mod lines;
mod marks;
mod reader;

// A file's ends into words and its levels beside them: 1, 2, 3, 6, 16, 14. On a refusal nothing changes; what stands
// past the last link stays.
pub fn read(file: &[u8], words: &mut [u16], levels: &mut [i16]) -> Reading
    ensures reply { result ≡ read_reply file.now (length words.old)
        (length levels.old) }
    ensures lent { words.new
        ≡ read_words file.now words.old (length levels.old) }
    ensures levels { levels.new
        ≡ read_levels file.now (length words.old) levels.old }
    ensures number { reading_number result
        ≡ read_refusal (lines_of file.now) (length words.old) (length levels.old) }
    ensures values { reading_values result
        ≡ unless (read_refusal (lines_of file.now) (length words.old)
        (length levels.old)) (units_in (lines_of file.now)
        ∷ link_frames (lines_of file.now) ∷ []) }
{
    let marks = marks::made();
    let refused = reader::refusal(&marks, file, words.len(), levels.len());
    if refused != 0 {
        return Reading::Refused(refused);
    }
    let links = reader::fill(&marks, file, words, levels);
    Reading::Read {
        units: marks::word_at(&marks, file, 2),
        links: links as u16,
    }
}
