// Whether what was shown is a ring as T-04 asks, from the words of the table alone.
use base_slices::word;

// The ends of link `j`.
fn ends(words: &[u16], j: u16) -> (u16, u16) {
    let at = 2 * (j as usize);
    (word(words, at), word(words, at + 1))
}

// The two units are the ends of one link, in either order.
fn same(u: u16, v: u16, ends: (u16, u16)) -> bool {
    (u, v) == ends || (v, u) == ends
}

// Some link of the table joins the two units.
fn linked(words: &[u16], u: u16, v: u16) -> bool {
    words
        .chunks_exact(2)
        .any(|link| same(u, v, (word(link, 0), word(link, 1))))
}

// Three or more different units, each linked to the next and the last to the first, that begin with the ends of the
// first link and have those of the second beside each other.
pub(crate) fn is_ring(words: &[u16], first: u16, second: u16, ring: &[u16]) -> bool {
    let mut good = 3 <= ring.len() && same(word(ring, 0), word(ring, 1), ends(words, first));
    let mut holds = false;
    for (u, v) in ring.iter().zip(ring.iter().skip(1).chain(ring)) {
        good &= linked(words, *u, *v);
        holds |= same(*u, *v, ends(words, second));
    }
    for (i, u) in ring.iter().enumerate() {
        good &= !ring[..i].contains(u);
    }
    good & holds
}
