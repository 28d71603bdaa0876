// The counts of a table of links, and the search for one link, over plain tables (document 02, T-09).
#![tactic(auto)]

ghost use Rattle.std.specs.Prelude.{◌≡◌};
ghost use Rattle.table.specs.Table.{same_ends};
ghost use Rattle.live_table.specs.Counts.{counts_to, miscounted};
ghost use Rattle.live_table.specs.CountLaws.{raised_at, counted_in};
ghost use Rattle.live_table.specs.Live.{place_of};

// The number of unit `v` raised by `x`, as far as a word holds it.
fn raise(counts: &mut [u16], v: u16, x: u16)
    ensures { counts.new ≡ raised_at counts.old v x }
{
    let old = base_slices::word(counts, v as usize);
    base_slices::put(counts, v as usize, old.saturating_add(x));
}

// A link counted at its two ends, once where they are equal.
fn count_in(counts: &mut [u16], a: u16, b: u16)
    ensures { counts.new ≡ counted_in counts.old a b }
{
    raise(counts, a, 1);
    raise(counts, b, base_choice::choose(a == b, 0, 1));
}

// The number of links at each unit, of the first `links` links.
pub fn counts_of(links: u16, words: &[u16]) -> [u16; 256]
    ensures { result ≡ counts_to links words.now }
{
    let mut counts = [0u16; 256];
    for j in 0..links {
        let i = 2 * (j as usize);
        count_in(
            &mut counts,
            base_slices::word(words, i),
            base_slices::word(words, i + 1),
        );
    }
    counts
}

// Whether a stored number is not the count.
pub fn miscounted(links: u16, words: &[u16], counts: &[u16]) -> bool
    ensures { result ≡ miscounted links words.now counts.now }
{
    let right = counts_of(links, words);
    let mut wrong = false;
    for v in 0..256 {
        wrong |= base_slices::word(counts, v) != base_slices::word(&right, v);
    }
    wrong
}

// Whether the links (a, b) and (c, d) join the same two units.
fn same_ends(a: u16, b: u16, c: u16, d: u16) -> bool
    ensures { result ≡ same_ends a b c d }
{
    (a == c && b == d) || (a == d && b == c)
}

// The position of the first link that joins `a` and `b`, whichever way round; the number of links where none does.
pub fn place_of(words: &[u16], a: u16, b: u16) -> usize
    ensures { result ≡ place_of a b words.now }
{
    for (j, link) in words.chunks_exact(2).enumerate() {
        if same_ends(a, b, link[0], link[1]) {
            return j;
        }
    }
    words.len() / 2
}
