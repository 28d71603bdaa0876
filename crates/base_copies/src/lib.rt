// Tables copied out of words and laid over them, whole or not at all.
#![tactic(auto)]

ghost use Rattle.std.specs.Prelude.{◌≡◌, ℕ, ◌+◌, ◌≤◌, min, leb, length, get_or, replicate};
ghost use Rattle.base_lists.specs.Tables.{over};
ghost use Rattle.table_levels.specs.Level.{to_words, from_words};
ghost use Rattle.base_copies.specs.Parts.{part, laid, laid_in, copied, PartOr, copied_levels, LevelsOr};

// How many of the given entries a table of this size can hold.
pub fn held(size: usize, count: usize) -> usize
    ensures { result ≡ min size count }
{
    size.min(count)
}

// Whether the slice has that many words from `at` on.
fn fits(at: usize, count: usize, words: usize) -> bool
    ensures { result ≡ leb (at + count) words }
{
    at <= words && count <= words - at
}

// Copies words from `at` on over those from `place` on.
// Stays: `copy_from_slice` goes by addresses, which the archives for other processors may not (`tools/cross`).
fn carry(from: &[u16], at: usize, count: usize, words: &mut [u16], place: usize)
    requires { (at + count ≤ length from.now) × (place + count ≤ length words.old) }
    ensures { words.new ≡ laid place (part at count from.now) words.old }
{
    for i in 0..count {
        words[place + i] = from[at + i];
    }
}

// A table over the words from `at` on.
pub fn lay(table: &[u16], at: usize, words: &mut [u16])
    ensures { words.new ≡ laid_in at table.now words.old }
{
    if !fits(at, table.len(), words.len()) {
        return;
    }
    carry(table, 0, table.len(), words, at);
}

// Stores `x` in the given number of words from `at` on.
pub fn fill(x: u16, at: usize, count: usize, words: &mut [u16])
    ensures { words.new ≡ laid_in at (replicate count x) words.old }
{
    if !fits(at, count, words.len()) {
        return;
    }
    words[at..at + count].fill(x);
}

// Levels over the words from `at` on, each as its word, which stands for it.
pub fn lay_levels(levels: &[i16], at: usize, words: &mut [u16])
    ensures words { words.new ≡ laid_in at (to_words levels.now) words.old }
    ensures back { at + length levels.now ≤ length words.old →
        from_words (to_words levels.now) ≡ levels.now }
{
    if !fits(at, levels.len(), words.len()) {
        return;
    }
    for (i, &level) in levels.iter().enumerate() {
        words[at + i] = table_levels::word_of(level);
    }
}

// Copies the first words of a table to the front of `words`; past the end of the table it stores 0.
pub fn lay_first(count: u16, table: &[u16], words: &mut [u16])
    ensures { words.new ≡ over count (λ (i : ℕ). get_or table.now i 0) words.old }
{
    for v in 0..count {
        let i = v as usize;
        base_slices::put(words, i, base_slices::word(table, i));
    }
}

// The words from `at` on, as many as `to` takes.
pub fn copy(words: &[u16], at: usize, to: &mut [u16])
    ensures { to.new ≡ copied at words.now to.old }
{
    if !fits(at, to.len(), words.len()) {
        return;
    }
    carry(words, at, to.len(), to, 0);
}

// So many words from `at` on, or as many zeros where they are not all there.
pub fn table_at<const N: usize>(words: &[u16], at: usize) -> [u16; N]
    ensures { PartOr at N words.now result }
{
    let mut table = [0; N];
    copy(words, at, &mut table);
    table
}

// A level a link.
pub fn levels_at(words: &[u16], at: usize) -> [i16; 1024]
    ensures { LevelsOr at 1024 words.now result }
{
    let mut table: [i16; 1024] = [0; 1024];
    copy_levels(words, at, &mut table);
    table
}

// The words from `at` on as levels, as many as `to` takes.
fn copy_levels(words: &[u16], at: usize, to: &mut [i16])
    ensures { to.new ≡ copied_levels at words.now to.old }
{
    if !fits(at, to.len(), words.len()) {
        return;
    }
    levels_inside(words, at, to);
}

// The same where they are all there.
fn levels_inside(words: &[u16], at: usize, to: &mut [i16])
    requires { at + length to.old ≤ length words.now }
    ensures { to.new ≡ from_words (part at (length to.old) words.now) }
{
    for (i, level) in to.iter_mut().enumerate() {
        *level = table_levels::of_word(words[at + i]);
    }
}
