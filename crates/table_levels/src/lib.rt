// Levels of links (document 02, T-01): signed numbers of dBm, to and from two's complement.
#![tactic(auto)]

ghost use Rattle.std.specs.Prelude.{◌≡◌, ◌&&◌, length};
ghost use Rattle.base_lists.specs.Folds.{every};
ghost use Rattle.table_levels.specs.Level.{in_range, level_byte, byte_level, level_word, word_level};
ghost use Rattle.table_levels.specs.Level.{to_words, from_words};

// The level of a link that came without one (a link line of kind 02).
pub const LOWEST: i16 = -127;

// Whether a level is −127 to 0.
pub fn in_range(level: i16) -> bool
    ensures { result ≡ in_range level }
{
    LOWEST <= level && level <= 0
}

// Its two's complement byte.
pub fn byte_of(level: i16) -> u8
    ensures { result ≡ level_byte level }
{
    (word_of(level) % 256) as u8
}

// The level in a byte.
pub fn of_byte(b: u8) -> i16
    ensures { result ≡ byte_level b }
{
    i16::from(b.cast_signed())
}

// Its two's complement word.
pub fn word_of(level: i16) -> u16
    ensures { result ≡ level_word level }
{
    level.cast_unsigned()
}

// The level in a word.
pub fn of_word(w: u16) -> i16
    ensures { result ≡ word_level w }
{
    w.cast_signed()
}

// Whether all levels are −127 to 0. Every level is looked at: a loop without a way out is taken several at a time.
pub fn all_in_range(levels: &[i16]) -> bool
    ensures { result ≡ every in_range levels.now }
{
    let mut ok = true;
    for level in levels {
        ok &= in_range(*level);
    }
    ok
}

// Levels as words; words of 16 bits hold them all.
pub fn words_of(levels: &[i16; 1024]) -> [u16; 1024]
    ensures words { result ≡ to_words levels.now }
    ensures back { from_words result ≡ levels.now }
{
    let mut words = [0; 1024];
    lay(levels, &mut words);
    words
}

fn lay(levels: &[i16], words: &mut [u16])
    requires { length levels.now ≡ length words.old }
    ensures words { words.new ≡ to_words levels.now }
    ensures back { from_words words.new ≡ levels.now }
{
    for (i, &level) in levels.iter().enumerate() {
        words[i] = word_of(level);
    }
}
