// The table of given lists, and that of a live table's lists with a link more or less.
ghost use Rattle.std.specs.Prelude.{◌≡◌, [], ◌∷◌, ◌++◌, ◌+◌, ◌-◌, ◌*◌, ◌≤◌, ◌<◌, length, get_or, set, take, pos};
ghost use Rattle.live_table.specs.Live.{held, live_of, added, less_link, without};
ghost use Rattle.value_live.specs.View.{of};

use super::whole::Live;
use spec_state::Table;

// Ends past the links absent, levels past them 0, each number the count.
pub(crate) fn made(count: u16, words: &[u16], heard: &[i16]) -> Live
    requires { (length words.now ≤ 2048) × (length heard.now ≤ 1024) }
    ensures { of result ≡ live_of (record {
      units = count;
      words = words.now;
      levels = heard.now;
    }) }
{
    let Table {
        units,
        links,
        ends,
        levels,
    } = load_begin::table(count, words, heard);
    let counts = live_table::counts_of(links, words);
    Live {
        units,
        links,
        ends,
        levels,
        counts,
    }
}

// `level` at `i`; nothing past the end.
fn put_level(levels: &mut [i16], i: usize, level: i16)
    ensures { levels.new ≡ set levels.old i level }
{
    if i < levels.len() {
        levels[i] = level;
    }
}

// The level at `i`, 0 past the end.
fn level_at(levels: &[i16], i: usize) -> i16
    ensures { result ≡ get_or levels.now i (pos 0) }
{
    if i < levels.len() { levels[i] } else { 0 }
}

// The first `m` links with one more.
fn longer_ends(ends: [u16; 2048], m: usize, a: u16, b: u16) -> [u16; 2048]
    requires { m < 1024 }
    ensures { take (2 * m + 2) result ≡ take (2 * m) ends ++ a ∷ b ∷ [] }
{
    let mut new = ends;
    base_slices::put(&mut new, 2 * m, a);
    base_slices::put(&mut new, 2 * m + 1, b);
    new
}

// The first `m` levels with one more.
fn longer_levels(levels: [i16; 1024], m: usize, level: i16) -> [i16; 1024]
    requires { m < 1024 }
    ensures { take (m + 1) result ≡ take m levels ++ level ∷ [] }
{
    let mut new = levels;
    put_level(&mut new, m, level);
    new
}

// With a link at the end.
pub(crate) fn longer(live: Live, a: u16, b: u16, level: i16) -> Live
    requires { live.links < 1024 }
    ensures { of result ≡ live_of (added a b level (held (of live))) }
{
    let Live {
        units,
        links,
        ends,
        levels,
        ..
    } = live;
    let m = links as usize;
    let words = longer_ends(ends, m, a, b);
    let heard = longer_levels(levels, m, level);
    made(units, &words[..2 * m + 2], &heard[..m + 1])
}

// Of the first `count` words all but the two from `at` on; later ones move down.
fn closed_ends(ends: [u16; 2048], count: usize, at: usize) -> [u16; 2048]
    requires { (at + 2 ≤ count) × (count ≤ 2048) }
    ensures { take (count - 2) result ≡ without at 2 (take count ends) }
{
    let mut new = ends;
    let mut i = at;
    while i + 2 < count {
        let later = base_slices::word(&ends, i + 2);
        base_slices::put(&mut new, i, later);
        i += 1;
    }
    new
}

// Of the first `count` levels all but the one at `at`.
fn closed_levels(levels: [i16; 1024], count: usize, at: usize) -> [i16; 1024]
    requires { (at + 1 ≤ count) × (count ≤ 1024) }
    ensures { take (count - 1) result ≡ without at 1 (take count levels) }
{
    let mut new = levels;
    let mut i = at;
    while i + 1 < count {
        let later = level_at(&levels, i + 1);
        put_level(&mut new, i, later);
        i += 1;
    }
    new
}

// Without the link at position `j`.
pub(crate) fn shorter(live: Live, j: usize) -> Live
    requires { (j < live.links) × (live.links ≤ 1024) }
    ensures { of result ≡ live_of (less_link j (held (of live))) }
{
    let Live {
        units,
        links,
        ends,
        levels,
        ..
    } = live;
    let m = links as usize;
    let words = closed_ends(ends, 2 * m, 2 * j);
    let heard = closed_levels(levels, m, j);
    made(units, &words[..2 * m - 2], &heard[..m - 1])
}
