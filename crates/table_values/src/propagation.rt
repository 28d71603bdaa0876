// What stages 1 and 9 share: what the units say, and whether a round changed anything.
ghost use Rattle.std.specs.Prelude.{◌≡◌, ℕ};
ghost use Rattle.base_lists.specs.Tables.{over};
ghost use Rattle.base_lists.specs.Folds.{agree};
ghost use Rattle.spec_rules.specs.Components.{color_said, color_ends};

use super::tables;

// Each unit's own number.
fn numbered(units: u16, color: [u16; 256]) -> [u16; 256]
    ensures { result ≡ over units (λ (v : ℕ). v) color }
{
    let mut new = color;
    for v in 0..units {
        tables::store(&mut new, v, v);
    }
    new
}

// What the units say: in the first round each its own number, later its present value.
pub fn said(units: u16, made: u16, color: [u16; 256]) -> [u16; 256]
    ensures { result ≡ color_said units made color }
{
    if made == 0 {
        numbered(units, color)
    } else {
        color
    }
}

// Whether two tables agree below `units`. Every entry is compared, without a branch.
fn agree(units: u16, before: &[u16], after: &[u16]) -> bool
    ensures { result ≡ agree units before.now after.now }
{
    let count = (units as usize).min(before.len()).min(after.len());
    let mut same = true;
    for i in 0..count {
        same &= before[i] == after[i];
    }
    same
}

// Whether the stage ends: with the first later round that changes nothing.
pub fn ends(units: u16, made: u16, before: &[u16], after: &[u16]) -> bool
    ensures { result ≡ color_ends units made before.now after.now }
{
    made != 0 && agree(units, before, after)
}
