// Stage 9, unit by unit: each unit's head, with which its join with its parent is made; what the units say, and what
// they take in. At most 256 units count.
ghost use Rattle.std.specs.Prelude.{◌≡◌, cond, ℕ, ◌<◌, min, ltb, get_or};
ghost use Rattle.base_lists.specs.Tables.{over};
ghost use Rattle.spec_rules.specs.Basics.{ABSENT};
ghost use Rattle.stage09_aux.specs.Heads.{said_by, head_of, least_of};

use table::ABSENT;
use table_values::tables;

// Each unit's head: its parent where `parents` marks their join; itself where it does not, or where the unit is a root.
// Absent past the units.
pub fn of(units: u16, parent: &[u16; 256], parents: &[u16; 256]) -> [u16; 256]
    ensures { (u : ℕ) → u < 256 →
        get_or result u 0 ≡ cond (ltb u (min units 256)) (head_of parent.now parents.now u) ABSENT }
{
    let mut new = tables::blank();
    for u in 0..units.min(256) {
        let at = u as usize;
        let alone = (parents[at] == 0) | (parent[at] == ABSENT);
        new[at] = base_choice::choose(alone, u, parent[at]);
    }
    new
}

// What the units say, roots the absent mark: the least of a value and itself.
pub fn without_roots(units: u16, parent: &[u16; 256], value: [u16; 256]) -> [u16; 256]
    ensures { result ≡ over (min units 256) (said_by parent.now value) value }
{
    least(units, parent, &value, &value, value)
}

// What a unit took in, and what its head told it; roots are absent.
pub fn least(
    units: u16,
    parent: &[u16; 256],
    told: &[u16; 256],
    t: &[u16; 256],
    old: [u16; 256],
) -> [u16; 256]
    ensures { result ≡ over (min units 256)
        (least_of parent.now told.now t.now) old }
{
    let mut new = old;
    for v in 0..units.min(256) {
        let at = v as usize;
        let x = t[at].min(told[at]);
        new[at] = base_choice::choose(parent[at] == ABSENT, ABSENT, x);
    }
    new
}
