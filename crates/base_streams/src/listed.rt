// Lists as a stream has them: how many numbers there are, then each, into a lent slice; those that have no room are
// read over.
ghost use Rattle.std.specs.Prelude.{◌≡◌};
ghost use Rattle.base_lists.specs.Tables.{over};
ghost use Rattle.base_streams.specs.Stream.{number_at};
ghost use Rattle.base_streams.specs.Series.{word_from, level_from};
ghost use Rattle.base_streams.specs.Listed.{words_at, levels_at};

use super::{Cursor, series};

// How many numbers there are, and the cursor after them.
#[derive(Clone, Copy)]
pub struct Listed {
    pub count: usize,
    pub cursor: Cursor,
}

// As words.
pub fn words(stream: &[u8], cursor: Cursor, words: &mut [u16]) -> Listed
    ensures list { result ≡ words_at stream.now cursor }
    ensures words { words.new
        ≡ over (number_at stream.now cursor).value
        (word_from stream.now (number_at stream.now cursor).cursor) words.old }
{
    let size = super::next_number(stream, cursor);
    let after = series::words(stream, size.cursor, size.value, words);
    Listed {
        count: size.value as usize,
        cursor: after,
    }
}

// As levels.
pub fn levels(stream: &[u8], cursor: Cursor, levels: &mut [i16]) -> Listed
    ensures list { result ≡ levels_at stream.now cursor }
    ensures levels { levels.new
        ≡ over (number_at stream.now cursor).value
        (level_from stream.now (number_at stream.now cursor).cursor) levels.old }
{
    let size = super::next_number(stream, cursor);
    let after = series::levels(stream, size.cursor, size.value, levels);
    Listed {
        count: size.value as usize,
        cursor: after,
    }
}
