// A round of breadth first (stage 2): one pass over the links gives each unit the parent that it would take, one over
// the units both tables and the end.
#![tactic(auto)]

pub mod choice;
pub mod planned;

ghost use Rattle.std.specs.Prelude.{◌≡◌, not, ℕ, ◌<◌, ◌≤◌, min, length, get_or};
ghost use Rattle.base_lists.specs.Tables.{over};
ghost use Rattle.base_lists.specs.Folds.{some};
ghost use Rattle.table.specs.Table.{max_units};
ghost use Rattle.spec_rules.specs.Tree.{visited_before, chosen_parent, parent_round, dist_round, tree_ends};
ghost use Rattle.spec_rules.specs.TreeLaws.{Linked, visits_by, parent_by, dist_by};
ghost use Rattle.stage02_round.specs.Wrapped.{wrapped};

use table::ABSENT;

// The tables after a round, and whether the stage ends with it.
#[derive(Clone, Copy)]
pub struct After {
    pub parent: [u16; 256],
    pub dist: [u16; 256],
    pub ends: bool,
}

// At most 256 units and 1,024 links count. The ends of a link are read below 256, the rest of a greater number, so that
// no index is tested.
pub fn round(
    units: u16,
    links: u16,
    made: u16,
    ends: &[u16; 2048],
    levels: &[i16; 1024],
    color: &[u16; 256],
    parent: [u16; 256],
    dist: [u16; 256],
) -> After
    ensures parents { result.parent ≡ parent_round (min units 256) (min links 1024) made (wrapped ends.now)
        levels.now color.now dist parent }
    ensures dists { result.dist ≡ dist_round (min units 256) (min links 1024) made (wrapped ends.now)
        levels.now color.now dist }
    ensures ends { result.ends ≡ tree_ends (min units 256) (min links 1024) made (wrapped ends.now)
        levels.now color.now dist }
{
    let count = units.min(256);
    let most = links.min(1024);
    let cand = chosen(most, made, ends, levels, &dist);
    visit(count, made, color, &cand, parent, dist)
}

// The parent that each unit would take.
fn chosen(links: u16, made: u16, ends: &[u16], levels: &[i16], dist: &[u16]) -> [u16; 256]
    requires { (links ≤ 1024) × (length dist.now ≡ 256) × (length ends.now ≡ 2048)
        × (length levels.now ≡ 1024) }
    ensures { (v : ℕ) → v < max_units →
        get_or result v 0 ≡ chosen_parent links made (wrapped ends.now) levels.now dist.now v }
{
    let mut held = [0; 256];
    let mut best = [ABSENT; 256];
    for j in 0..links as usize {
        let at = 2 * j;
        let a = ends[at] % 256;
        let b = ends[at + 1] % 256;
        let level = levels[j];
        offer_both(made, dist, level, a, b, &mut held, &mut best);
    }
    best
}

// A link: each end is offered the other. It is passed over where neither was visited in the round before, as most are
// in most rounds.
fn offer_both(
    made: u16,
    dist: &[u16],
    level: i16,
    a: u16,
    b: u16,
    held: &mut [i16; 256],
    best: &mut [u16; 256],
)
    requires { (a < 256) × (b < 256) × (length dist.now ≡ 256) }
    ensures { Linked (λ (v : ℕ). visited_before made dist.now) level a b held.old
        best.old held.new best.new }
{
    let from_a = was_visited(made, dist, a);
    let from_b = was_visited(made, dist, b);
    if from_a | from_b {
        choice::offer_if(from_b, held, best, a, level, b);
        choice::offer_if(from_a, held, best, b, level, a);
    }
}

// Whether unit `w` was visited in the round before.
fn was_visited(made: u16, dist: &[u16], w: u16) -> bool
    requires { w < length dist.now }
    ensures { result ≡ visited_before made dist.now w }
{
    let at = w as usize;
    dist[at] == made.saturating_sub(1)
}

// The round, from the chosen parents: one pass over the units, without branches.
fn visit(
    units: u16,
    made: u16,
    color: &[u16],
    cand: &[u16],
    parent: [u16; 256],
    dist: [u16; 256],
) -> After
    requires { (units ≤ 256) × (length color.now ≡ 256) × (length cand.now ≡ 256) }
    ensures parents { result.parent ≡ over units
        (parent_by made color.now dist cand.now parent) parent }
    ensures dists { result.dist ≡ over units (dist_by made color.now dist cand.now) dist }
    ensures ends { result.ends ≡ not (some units (visits_by made color.now dist cand.now)) }
{
    let mut new_parent = parent;
    let mut new_dist = dist;
    let mut any = false;
    for v in 0..units {
        let at = v as usize;
        let visited = visits(made, color, &dist, cand, v);
        let taken = base_choice::choose(made == 0, ABSENT, cand[at]);
        new_parent[at] = base_choice::choose(visited, taken, parent[at]);
        new_dist[at] = base_choice::choose(visited, made, dist[at]);
        any |= visited;
    }
    After {
        parent: new_parent,
        dist: new_dist,
        ends: !any,
    }
}

// Whether unit `v` is visited in this round.
fn visits(made: u16, color: &[u16], dist: &[u16], cand: &[u16], v: u16) -> bool
    requires { (v < length color.now) × (v < length dist.now) × (v < length cand.now) }
    ensures { result ≡ visits_by made color.now dist.now cand.now v }
{
    let at = v as usize;
    let own = color[at] == v;
    let later = (dist[at] == ABSENT) & (cand[at] != ABSENT);
    if made == 0 { own } else { later }
}
