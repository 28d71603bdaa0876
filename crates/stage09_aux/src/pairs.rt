// The joins of the auxiliary graph that count, as a table of pairs of units: those of links, then those with parents.
ghost use Rattle.std.specs.Prelude.{◌≡◌, cond, not, ◌&&◌, List, ℕ, ◌+◌, ◌*◌, ◌≤◌, ◌<◌, min, length, set};
ghost use Rattle.spec_rules.specs.Basics.{is_root};
ghost use Rattle.stage09_aux.specs.Pairs.{Hears, links_heard, joins_heard};

use table::ABSENT;
use table_values::tables;

// How many there are. At most 256 units and 1,024 links count.
pub fn joins(
    units: u16,
    links: u16,
    ends: &[u16; 2048],
    parent: &[u16; 256],
    linked: &[u16; 1024],
    parents: &[u16; 256],
    pairs: &mut [u16; 2560],
) -> u16
    ensures heard { Hears result pairs.new
        (joins_heard (min units 256) (min links 1024) ends.now parent.now linked.now
        parents.now) }
    ensures room { length pairs.new ≡ 2560 }
{
    let count = of_links(links.min(1024), ends, parent, linked, pairs);
    of_parents(units.min(256), parent, parents, pairs, count)
}

// The joins of links. Those that are not marked are passed over.
fn of_links(
    links: u16,
    ends: &[u16; 2048],
    parent: &[u16; 256],
    linked: &[u16; 1024],
    pairs: &mut [u16; 2560],
) -> u16
    requires { links ≤ 1024 }
    ensures few { result ≤ links }
    ensures heard { Hears result pairs.new
        (links_heard links ends.now parent.now linked.now) }
{
    let mut count = 0;
    for j in 0..links {
        let at = j as usize;
        if linked[at] == 0 {
            continue;
        }
        let a = ends[2 * at];
        let b = ends[2 * at + 1];
        count = push(no_roots(parent, a, b), a, b, pairs, count);
    }
    count
}

// The joins with parents, after those of links.
fn of_parents(
    units: u16,
    parent: &[u16; 256],
    parents: &[u16; 256],
    pairs: &mut [u16; 2560],
    had: u16,
) -> u16
    requires { (units ≤ 256) × (had ≤ 1024) }
    ensures { (m : ℕ) (ends linked : List ℕ) →
        Hears had pairs.old (links_heard m ends parent.now linked)
        → Hears result pairs.new (joins_heard units m ends parent.now linked parents.now) }
{
    let mut count = had;
    for u in 0..units {
        let at = u as usize;
        if parents[at] == 0 {
            continue;
        }
        let b = parent[at];
        count = push(no_roots(parent, u, b), u, b, pairs, count);
    }
    count
}

// Whether neither of two units is a root.
fn no_roots(parent: &[u16; 256], a: u16, b: u16) -> bool
    ensures { result ≡ (not (is_root parent.now a) && not (is_root parent.now b)) }
{
    (tables::at(parent, a) != ABSENT) & (tables::at(parent, b) != ABSENT)
}

// A pair, counted where the test holds.
fn push(counts: bool, a: u16, b: u16, pairs: &mut [u16; 2560], count: u16) -> u16
    requires { count < 1280 }
    ensures stored { pairs.new ≡ set (set pairs.old (2 * count) a) (2 * count + 1) b }
    ensures counted { result ≡ cond counts (count + 1) count }
{
    let at = 2 * count as usize;
    pairs[at] = a;
    pairs[at + 1] = b;
    base_choice::choose(counts, count + 1, count)
}
