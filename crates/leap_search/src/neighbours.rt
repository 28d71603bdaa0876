// The neighbours of each unit, as a chain of places in a table of pairs: a place holds the neighbour, the place beside
// it in the same pair the unit.
ghost use Rattle.std.specs.Prelude.{◌≡◌, ◌+◌, ◌*◌, ◌<◌, ◌≤◌, length, get_or, set};
ghost use Rattle.leap_search.specs.Chains.{Chained};

// The first place of each unit's chain, one more than its number; `next` gets the same of the place that follows a
// place, 0 where none does. Places fall along a chain, so that it ends. Units are below 256.
pub(crate) fn chained(pairs: u16, ends: &[u16], next: &mut [u16]) -> [u16; 256]
    requires { (pairs ≤ 1280) × (2 * pairs ≤ length ends.now) × (2 * pairs ≤ length next.old) }
    ensures { Chained (2 * pairs) result next.new }
{
    let mut first = [0; 256];
    for j in 0..pairs {
        let i = 2 * j;
        let at = i as usize;
        let a = ends[at] % 256;
        let b = ends[at + 1] % 256;
        join(b, i, &mut first, next);
        join(a, i + 1, &mut first, next);
    }
    first
}

// Place `i` goes before all others of unit `u`.
fn join(u: u16, i: u16, first: &mut [u16; 256], next: &mut [u16])
    requires { (u < 256) × (i < 2560) × (i < length next.old) }
    ensures { (first.new ≡ set first.old u (i + 1))
        × (next.new ≡ set next.old i (get_or first.old u 0)) }
{
    let at = u as usize;
    let before = first[at];
    first[at] = i + 1;
    next[i as usize] = before;
}
