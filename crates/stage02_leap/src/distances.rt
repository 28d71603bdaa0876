// Distances found ahead of the rounds of stage 2 are tested over every link and every unit, and where they pass the
// tables are those that the rounds leave.
ghost use Rattle.std.specs.Prelude.{◌≡◌, ℕ, ◌+◌, ◌<◌, ◌≤◌, true, false, not, ◌&&◌, length, ◌==◌, nat_le};
ghost use Rattle.std.specs.Prelude.{slice_index, List, IfSome, MatchOption};
ghost use Rattle.base_lists.specs.Tables.{over};
ghost use Rattle.base_lists.specs.Folds.{some};
ghost use Rattle.table.specs.Table.{max_units};
ghost use Rattle.spec_rules.specs.Basics.{at};
ghost use Rattle.spec_rules.specs.Fits.{EndsWithin};
ghost use Rattle.spec_rules.specs.TreeLaws.{Linked};
ghost use Rattle.stage02_leap.specs.Goal.{one_nearer, nearest, parent_from, Leapt};
ghost use Rattle.stage02_leap.specs.Nearer.{apart, apart_at, strays, strays_at};

use table::ABSENT;
use table_values::bounds;

// The tables after round `last`, which ends the stage.
#[derive(Clone, Copy)]
pub struct Leap {
    pub parent: [u16; 256],
    pub dist: [u16; 256],
    pub last: u16,
}

// Both tables.
#[derive(Drop)]
struct Settled {
    parent: [u16; 256],
    dist: [u16; 256],
}

// From the round after `made` rounds on, where `far` has a distance for each unit and `tip` is the unit reached last.
pub fn tested(
    units: u16,
    links: u16,
    made: u16,
    ends: &[u16; 2048],
    levels: &[i16; 1024],
    far: &[u16; 256],
    tip: u16,
    parent: [u16; 256],
    dist: [u16; 256],
) -> Option<Leap>
    ensures leapt { IfSome result (λ (l : Leap).
        Leapt units links made l.last ends.now levels.now parent dist l.parent l.dist) }
{
    let fits = (units <= 256) & bounds::links_fit(units, links, ends);
    let top = base_slices::word(far, tip as usize);
    let within = (tip < units) & (top < units);
    if !(fits & within) {
        return None;
    }
    let last = top + 1;
    let begun = (1 <= made) & (made <= last);
    if !begun {
        return None;
    }
    let best = nearest(links, ends, levels, far)?;
    let new = settle(units, made, last, far, &best, parent, dist)?;
    let Settled { parent, dist } = new;
    Some(Leap { parent, dist, last })
}

// The best neighbours one nearer, if the ends of every link are at most one apart.
fn nearest(links: u16, ends: &[u16], levels: &[i16], far: &[u16]) -> Option<[u16; 256]>
    requires { (length far.now ≡ 256) × EndsWithin 256 links ends.now × (length ends.now ≡ 2048)
        × (length levels.now ≡ 1024) }
    ensures units { IfSome result (λ (best : List ℕ). (v : ℕ) → v < max_units →
        slice_index best v ≡ nearest links ends.now levels.now far.now v) }
    ensures apart { MatchOption result (some links (apart_at ends.now far.now) ≡ true)
        (λ (best : List ℕ). some links (apart_at ends.now far.now) ≡ false) }
{
    let mut held = [0; 256];
    let mut best = [ABSENT; 256];
    let mut wide = false;
    for j in 0..links as usize {
        let place = 2 * j;
        let a = ends[place];
        let b = ends[place + 1];
        let gap = offer_nearer(far, levels[j], a, b, &mut held, &mut best);
        wide |= gap;
    }
    if wide { None } else { Some(best) }
}

// A link: its further end is offered the nearer one. Whether they are more than one apart.
fn offer_nearer(
    far: &[u16],
    level: i16,
    a: u16,
    b: u16,
    held: &mut [i16; 256],
    best: &mut [u16; 256],
) -> bool
    requires { (a < 256) × (b < 256) × (length far.now ≡ 256) }
    ensures units { Linked (one_nearer far.now) level a b held.old best.old
        held.new best.new }
    ensures apart { result ≡ apart (at far.now a) (at far.now b) }
{
    let at_a = a as usize;
    let at_b = b as usize;
    let x = far[at_a];
    let y = far[at_b];
    if one_more(x, y) {
        stage02_round::choice::offer(held, best, b, level, a);
        return false;
    }
    if one_more(y, x) {
        stage02_round::choice::offer(held, best, a, level, b);
        return false;
    }
    x != y
}

// Whether `y` is the number after `x`.
fn one_more(x: u16, y: u16) -> bool
    ensures { result ≡ (x + 1 == y) }
{
    x as u32 + 1 == y as u32
}

// Unit by unit, if no unit's distance goes wrong.
fn settle(
    units: u16,
    made: u16,
    last: u16,
    far: &[u16],
    cand: &[u16],
    parent: [u16; 256],
    dist: [u16; 256],
) -> Option<Settled>
    requires { (units ≤ 256) × (length far.now ≡ 256) × (length cand.now ≡ 256) }
    ensures parents { IfSome result (λ (s : Settled). s.parent ≡ over units
        (parent_from made far.now cand.now parent) parent) }
    ensures dists { IfSome result (λ (s : Settled). s.dist ≡ over units (at far.now) dist) }
    ensures strays { MatchOption result (some units (strays_at made last far.now cand.now dist) ≡ true)
        (λ (s : Settled). some units (strays_at made last far.now cand.now dist) ≡ false) }
{
    let mut new_parent = parent;
    let mut new_dist = dist;
    let mut stray = false;
    for v in 0..units {
        let at = v as usize;
        let d = far[at];
        let best = cand[at];
        let off = strays(made, last, d, best, dist[at]);
        new_parent[at] = base_choice::choose(to_visit(made, d), best, parent[at]);
        new_dist[at] = d;
        stray |= off;
    }
    if stray {
        return None;
    }
    Some(Settled {
        parent: new_parent,
        dist: new_dist,
    })
}

// Whether a unit at this distance is still to be visited.
fn to_visit(made: u16, d: u16) -> bool
    ensures { result ≡ (nat_le made d && not (d == 65535)) }
{
    (made <= d) & (d != ABSENT)
}

// Whether a unit's distance goes wrong.
fn strays(made: u16, last: u16, d: u16, best: u16, known: u16) -> bool
    ensures { result ≡ strays made last d best known }
{
    let kept = known == d;
    let reached = (d == ABSENT) | ((d < last) & (best != ABSENT));
    let later = (known == ABSENT) & reached;
    if d < made { !kept } else { !later }
}
