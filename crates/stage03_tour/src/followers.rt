// Round one of stage 3: the follower of each arc. A turn gives both arcs of a unit.
ghost use Rattle.std.specs.Prelude.{◌≡◌, cond, ◌+◌, ◌*◌, ◌<◌, min, length};
ghost use Rattle.spec_rules.specs.Basics.{ABSENT};
ghost use Rattle.spec_rules.specs.Tour.{next_round};
ghost use Rattle.stage03_tour.specs.Siblings.{Eldest, Later, Past};
ghost use Rattle.stage03_tour.specs.Neighbors.{Parents, turn_to, in_by, out_by};

use table::ABSENT;
use table_values::tables;

mod siblings;

// The followers after the round.
pub(crate) fn next_round(units: u16, parent: &[u16], next: [u16; 512]) -> [u16; 512]
    requires { Parents units parent.now }
    ensures { result ≡ next_round units parent.now next }
{
    let near = siblings::scan(units, parent);
    next_by(units, parent, &near.eldest, &near.later, &near.past, next)
}

// The same from the tables of the scan, a fixed number of reads for each.
fn next_by(
    units: u16,
    parent: &[u16],
    eldest: &[u16],
    later: &[u16],
    past: &[u16],
    next: [u16; 512],
) -> [u16; 512]
    requires parents { Parents units parent.now }
    requires eldest_len { (length eldest.now ≡ 256) × Eldest 256 units 0 parent.now eldest.now }
    requires later_len { (length later.now ≡ 256) × Later units 0 parent.now later.now }
    requires past_len { (length past.now ≡ 256) × Past units 0 parent.now past.now }
    ensures { result ≡ next_round units parent.now next }
{
    let mut new = next;
    for v in 0..units {
        let at = 2 * (v as usize);
        new[at] = in_by(parent, eldest, past, v);
        new[at + 1] = out_by(parent, eldest, later, v);
    }
    new
}

// Of the arc into `v`. A root has none: what is read for it does not count.
fn in_by(parent: &[u16], eldest: &[u16], past: &[u16], v: u16) -> u16
    requires { (v < length parent.now) × (v < length eldest.now) × (v < length past.now) }
    ensures { result ≡ in_by parent.now eldest.now past.now v }
{
    let at = v as usize;
    let p = parent[at];
    let w = turn_to(past[at], eldest[at], p, p);
    let x = arc_word(tables::at(parent, w) == v, v, w);
    base_choice::choose(p == ABSENT, ABSENT, x)
}

// Of the arc out of `v`.
fn out_by(parent: &[u16], eldest: &[u16], later: &[u16], v: u16) -> u16
    requires { (v < length parent.now) × (v < length later.now) }
    ensures { result ≡ out_by parent.now eldest.now later.now v }
{
    let at = v as usize;
    let p = parent[at];
    let own = tables::at(parent, p);
    let w = turn_to(later[at], tables::at(eldest, p), own, v);
    let x = arc_word(tables::at(parent, w) == p, p, w);
    base_choice::choose(p == ABSENT, ABSENT, x)
}

// The neighbour after `u`, from the first child past `u`, the first child, and the parent.
fn turn_to(later: u16, eldest: u16, own: u16, u: u16) -> u16
    ensures { result ≡ turn_to later eldest own u }
{
    let greater = later.min(base_choice::choose(u < own, own, ABSENT));
    base_choice::choose(greater == ABSENT, eldest.min(own), greater)
}

// The arc from `v` to `w`: into `w` where `down`, else out of `v`.
fn arc_word(down: bool, v: u16, w: u16) -> u16
    ensures { result ≡ min (cond down (2 * w) (2 * v + 1)) ABSENT }
{
    if down {
        table_values::word_of(2 * (w as u32))
    } else {
        table_values::word_of(2 * (v as u32) + 1)
    }
}
