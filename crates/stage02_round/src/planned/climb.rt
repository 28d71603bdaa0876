// A climb along the planner's parents (document 02, T-05).
ghost use Rattle.std.specs.Prelude.{◌≡◌, ◌≤◌};
ghost use Rattle.spec_rules.specs.Planned.{steps_to};

use table::ABSENT;

// The steps from unit `v` up to `c`: absent where the chain ends, or goes on for as many units as there are, without
// it.
pub(crate) fn steps(plan: &[u16], c: u16, units: u16, v: u16) -> u16
    requires { units ≤ 256 }
    ensures { result ≡ steps_to plan.now c units v }
{
    let mut w = v;
    for far in 0..units {
        if w == c {
            return far;
        }
        w = base_slices::word(plan, w as usize);
        if w == ABSENT {
            return ABSENT;
        }
    }
    ABSENT
}
