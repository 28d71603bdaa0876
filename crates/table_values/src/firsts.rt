// The first item with a key, by buckets: one pass over the items, then a read for each key.
ghost use Rattle.std.specs.Prelude.{◌≡◌, ℕ, ◌<◌, slice_index};
ghost use Rattle.spec_rules.specs.Buckets.{BUCKETS, lookup};
ghost use Rattle.spec_rules.specs.FirstLaws.{first_at};

use super::tables;
use table::ABSENT;

// For each key below 512 the first of `count` items that has it.
pub fn firsts(count: u16, key: &[u16]) -> [u16; 512]
    ensures { (q : ℕ) → q < BUCKETS → slice_index result q ≡ first_at count key.now q }
{
    let mut first = tables::blank_arcs();
    for k in 0..count {
        tables::take_in(false, 512, &mut first, tables::at(key, k), k);
    }
    first
}

// The first of `count` items that has the key `q`, by looking at each.
pub fn first_at(count: u16, key: &[u16], q: u16) -> u16
    ensures { result ≡ first_at count key.now q }
{
    let mut x = ABSENT;
    for k in 0..count {
        x = x.min(base_choice::choose(tables::at(key, k) == q, k, ABSENT));
    }
    x
}

// The same from the buckets, and from `absent` for the absent key; a key that no state holds is looked for.
pub fn first_by(count: u16, key: &[u16], first: &[u16], absent: u16, q: u16) -> u16
    ensures { result ≡ lookup (first_at count key.now) first.now absent q }
{
    if q < 512 {
        return tables::at(first, q);
    }
    if q == ABSENT {
        return absent;
    }
    first_at(count, key, q)
}
