// What the stored values may be: the tests of well-formedness on one table, every entry judged.
ghost use Rattle.std.specs.Prelude.{◌≡◌, ℕ, Bool, nat_le, nat_lt};
ghost use Rattle.base_lists.specs.Folds.{every};
ghost use Rattle.table_levels.specs.Level.{in_range, word_level};
ghost use Rattle.spec_rules.specs.Bounds.{name_ok, number_ok, dist_ok};
ghost use Rattle.spec_rules.specs.Fits.{links_fit};
ghost use Rattle.table_values.specs.Tops.{Tells};

// A test of entries: one passes that is at most `most` once it is raised by `more` within a word. Raised by 1, an
// absent entry is 0.
// Stays: no plainer: an enum of the four kinds would be matched into this pair before each pass over a table.
#[derive(Clone, Copy)]
pub struct Limit {
    pub more: u16,
    pub most: u32,
}

// It names one of `count` things that exist, or is absent.
pub fn names(count: u32) -> Limit
    ensures { Tells result.more result.most (name_ok count) }
{
    Limit {
        more: 1,
        most: count,
    }
}

// It does not exceed 2,048.
pub fn numbers() -> Limit
    ensures { Tells result.more result.most number_ok }
{
    Limit {
        more: 0,
        most: 2048,
    }
}

// It does not exceed 2,048, or is absent.
pub fn dists() -> Limit
    ensures { Tells result.more result.most dist_ok }
{
    Limit {
        more: 1,
        most: 2049,
    }
}

// It is the word of a level in range.
pub fn levels() -> Limit
    ensures { Tells result.more result.most (λ (w : ℕ). in_range (word_level w)) }
{
    Limit {
        more: 127,
        most: 127,
    }
}

// The greatest entry, each raised by `more`. A loop without a way out is taken several words at a time.
fn top(more: u16, t: &[u16]) -> u16
    ensures { (most : ℕ) (p : ℕ → Bool) → Tells more most p → nat_le result most ≡ every p t.now }
{
    let mut greatest: u16 = 0;
    for x in t {
        greatest = greatest.max(x.wrapping_add(more));
    }
    greatest
}

// Every entry passes.
pub fn within(limit: Limit, t: &[u16]) -> bool
    ensures { (p : ℕ → Bool) → Tells limit.more limit.most p → result ≡ every p t.now }
{
    u32::from(top(limit.more, t)) <= limit.most
}

// Every entry names one of `count` things that exist, or is absent.
pub fn names_ok(count: u32, t: &[u16]) -> bool
    ensures { result ≡ every (name_ok count) t.now }
{
    within(names(count), t)
}

// No entry exceeds 2,048.
pub fn numbers_ok(t: &[u16]) -> bool
    ensures { result ≡ every number_ok t.now }
{
    within(numbers(), t)
}

// No entry exceeds 2,048 that is not absent.
pub fn dists_ok(t: &[u16]) -> bool
    ensures { result ≡ every dist_ok t.now }
{
    within(dists(), t)
}

// Every entry is below `count`.
pub fn all_below(count: u16, t: &[u16]) -> bool
    ensures { result ≡ every (λ (x : ℕ). nat_lt x count) t.now }
{
    if count == 0 {
        return t.is_empty();
    }
    top(0, t) <= count - 1
}

// There are at most 1,024 links, and each end is one of `units` units.
pub fn links_fit(units: u16, links: u16, ends: &[u16]) -> bool
    ensures { result ≡ links_fit units links ends.now }
{
    if 1024 < links {
        return false;
    }
    let count = 2 * (links as usize);
    all_below(units, &ends[..count.min(ends.len())])
}
