// The round trips: what comes back is what was given.
#![tactic(auto)]

ghost use Rattle.std.specs.Prelude.{◌≡◌, [], ◌∷◌, length};
ghost use Rattle.table.specs.Table.{link_count};
ghost use Rattle.file_spec.specs.File.{unless, lines_of, link_frames, file_length, read_words, read_levels};
ghost use Rattle.file_spec.specs.File.{written_file};
ghost use Rattle.file_spec.specs.File.{reading_number, reading_values, writing_number, writing_values};
ghost use Rattle.file_spec.specs.RoundTrip.{copy_refusal, copy_reply, copied_words, copied_levels, rewrite_refusal};
ghost use Rattle.file_spec.specs.RoundTrip.{rewrite_reply, rewritten_file};

use file_spec::{Reading, Writing};

// A table written into `file` and read back into `copy` and `copied`.
pub fn write_then_read(
    units: u16,
    words: &[u16],
    levels: &[i16],
    file: &mut [u8],
    copy: &mut [u16],
    copied: &mut [i16],
) -> Reading
    ensures reply { result ≡ copy_reply units words.now levels.now (length file.old)
        (length copy.old) (length copied.old) }
    ensures bytes { file.new
        ≡ written_file units words.now levels.now file.old }
    ensures same { copy.new
        ≡ copied_words units words.now levels.now (length file.old) copy.old
        (length copied.old) }
    ensures levels { copied.new
        ≡ copied_levels units words.now levels.now (length file.old)
        (length copy.old) copied.old }
    ensures number { reading_number result
        ≡ copy_refusal units words.now levels.now (length file.old)
        (length copy.old) (length copied.old) }
    ensures values { reading_values result
        ≡ unless (copy_refusal units words.now levels.now (length file.old)
        (length copy.old) (length copied.old)) (units ∷ link_count words.now ∷ []) }
{
    let done = file_write::write(units, words, levels, file);
    match done {
        Writing::Refused(number) => Reading::Refused(number),
        Writing::Written(characters) => {
            let end = characters as usize;
            file_read::read(&file[..end], copy, copied)
        }
    }
}

// A file read into `words` and `levels` and written back into `copy`.
pub fn read_then_write(
    file: &[u8],
    words: &mut [u16],
    levels: &mut [i16],
    copy: &mut [u8],
) -> Writing
    ensures reply { result ≡ rewrite_reply file.now (length words.old)
        (length levels.old) (length copy.old) }
    ensures ends { words.new
        ≡ read_words file.now words.old (length levels.old) }
    ensures levels { levels.new
        ≡ read_levels file.now (length words.old) levels.old }
    ensures same { copy.new
        ≡ rewritten_file file.now (length words.old) (length levels.old)
        copy.old }
    ensures number { writing_number result
        ≡ rewrite_refusal file.now (length words.old) (length levels.old)
        (length copy.old) }
    ensures values { writing_values result
        ≡ unless (rewrite_refusal file.now (length words.old) (length levels.old)
        (length copy.old)) (file_length (link_frames (lines_of file.now)) ∷ []) }
{
    let found = file_read::read(file, words, levels);
    match found {
        Reading::Refused(number) => Writing::Refused(number),
        Reading::Read { units, links } => {
            let m = links as usize;
            let end = 2 * m;
            file_write::write(units, &words[..end], &levels[..m], copy)
        }
    }
}
