// The better parent of two (document 02, T-02). For each unit two tables have the best neighbour so far and the level
// of the link to it.
ghost use Rattle.std.specs.Prelude.{◌≡◌, ◌||◌, ◌%◌, eqb, set};
ghost use Rattle.spec_rules.specs.Tree.{better, prefer};
ghost use Rattle.spec_rules.specs.TreeLaws.{prefer_if, neighbor_at};

use table::ABSENT;

// Whether a neighbour `w` over a link of `level` is a better parent than `best` over one of level `held`: the higher
// level, ties to the lesser number.
pub fn better(level: i16, w: u16, held: i16, best: u16) -> bool
    ensures { result ≡ better level w held best }
{
    level > held || (level == held && w < best)
}

// Whether it is taken: where there is none yet, or where it is better.
fn takes(level: i16, w: u16, held: i16, best: u16) -> bool
    ensures { result ≡ (eqb best 65535 || better level w held best) }
{
    best == ABSENT || better(level, w, held, best)
}

// Unit `v` is offered the neighbour `w` over a link of `level`. Units are below 256: the rest of a greater number
// counts, so that no index is tested.
pub fn offer(held: &mut [i16; 256], best: &mut [u16; 256], v: u16, level: i16, w: u16)
    ensures levels { held.new
        ≡ set held.old (v % 256)
        (prefer (neighbor_at held.old best.old (v % 256)) level w).level }
    ensures units { best.new
        ≡ set best.old (v % 256)
        (prefer (neighbor_at held.old best.old (v % 256)) level w).unit }
{
    let at = (v % 256) as usize;
    let old = held[at];
    if takes(level, w, old, best[at]) {
        held[at] = level;
        best[at] = w;
    }
}

// The same where the test holds.
pub fn offer_if(
    test: bool,
    held: &mut [i16; 256],
    best: &mut [u16; 256],
    v: u16,
    level: i16,
    w: u16,
)
    ensures levels { held.new
        ≡ set held.old (v % 256)
        (prefer_if test level w (neighbor_at held.old best.old (v % 256))).level }
    ensures units { best.new
        ≡ set best.old (v % 256)
        (prefer_if test level w (neighbor_at held.old best.old (v % 256))).unit }
{
    if test {
        offer(held, best, v, level, w);
    }
}
