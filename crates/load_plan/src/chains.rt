// The tops of chains of parents.
ghost use Rattle.std.specs.Prelude.{◌≡◌, ℕ, ◌<◌, ◌≤◌, get_or};
ghost use Rattle.spec_rules.specs.Planned.{top_of};

use table::ABSENT;
use table_values::tables;

// The top of each unit.
pub(crate) fn tops(units: u16, parents: &[u16]) -> [u16; 256]
    requires { units ≤ 256 }
    ensures { (v : ℕ) → v < units → get_or result v 0 ≡ top_of parents.now units v }
{
    let mut tops = tables::blank();
    let mut v = 0;
    while v < units {
        let at = v as usize;
        let top = top_of(units, parents, v);
        tops[at] = top;
        v += 1;
    }
    tops
}

// The unit without a parent at the end of a chain from unit `v`: absent where it goes on for as many units as there
// are.
fn top_of(units: u16, parents: &[u16], v: u16) -> u16
    ensures { result ≡ top_of parents.now units v }
{
    let mut w = v;
    let mut far: u16 = 0;
    while far < units {
        let up = tables::at(parents, w);
        if up == ABSENT {
            return w;
        }
        w = up;
        far += 1;
    }
    ABSENT
}
