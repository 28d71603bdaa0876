// Lists of numbers from a stream into a lent slice, as many as `count`; those that have no room are read over.
ghost use Rattle.std.specs.Prelude.{◌≡◌, set};
ghost use Rattle.base_lists.specs.Tables.{over};
ghost use Rattle.base_streams.specs.Series.{after_numbers, after_levels, word_from, level_from};

use super::Cursor;

// As words: a number's low 16 bits.
pub fn words(stream: &[u8], cursor: Cursor, count: u32, words: &mut [u16]) -> Cursor
    ensures cursor { result ≡ after_numbers count stream.now cursor }
    ensures words { words.new
        ≡ over count (word_from stream.now cursor) words.old }
{
    let mut c = cursor;
    for i in 0..count {
        let next = super::next_number(stream, c);
        base_slices::put(words, i as usize, (next.value % 65536) as u16);
        c = next.cursor;
    }
    c
}

// Levels.
pub fn levels(stream: &[u8], cursor: Cursor, count: u32, levels: &mut [i16]) -> Cursor
    ensures cursor { result ≡ after_levels count stream.now cursor }
    ensures levels { levels.new
        ≡ over count (level_from stream.now cursor) levels.old }
{
    let mut c = cursor;
    for i in 0..count {
        let next = super::next_level(stream, c);
        put_level(levels, i as usize, next.value);
        c = next.cursor;
    }
    c
}

// A level at `i`; nothing past the end.
fn put_level(levels: &mut [i16], i: usize, level: i16)
    ensures { levels.new ≡ set levels.old i level }
{
    if i < levels.len() {
        levels[i] = level;
    }
}
