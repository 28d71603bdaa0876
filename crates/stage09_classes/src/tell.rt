// Joins with parents: what each unit says to its head and hears from it.
ghost use Rattle.std.specs.Prelude.{◌≡◌, ℕ, ◌≤◌, ◌<◌, get_or};
ghost use Rattle.stage09_classes.specs.Propagation.{to_heads, by_head};

use table_values::tables;

// Each unit tells its head what it says, and is told what the head says. One pass for both: the one that follows reads
// nothing by another unit's number.
pub(crate) fn propagate(
    units: u16,
    heads: &[u16; 256],
    said: &[u16; 256],
    t: &mut [u16; 256],
) -> [u16; 256]
    requires { (units ≤ 256) × ((u : ℕ) → u < units → get_or heads.now u 0 < units) }
    ensures { (t.new ≡ to_heads units units heads.now said.now t.old)
        × ((u : ℕ) → u < units → get_or result u 0 ≡ by_head heads.now said.now u) }
{
    let mut told = tables::blank();
    for u in 0..units {
        let at = u as usize;
        let head = heads[at] as usize;
        told[at] = said[head];
        t[head] = t[head].min(said[at]);
    }
    told
}
