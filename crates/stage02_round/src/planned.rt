// The planner's tree, taken over whole (document 02, T-05).
ghost use Rattle.std.specs.Prelude.{◌≡◌, min};
ghost use Rattle.spec_rules.specs.Planned.{planned_parents, planned_dists};

mod climb;

// The tables of stage 2 after it.
#[derive(Clone, Copy)]
pub struct Planned {
    pub parent: [u16; 256],
    pub dist: [u16; 256],
}

// At most 256 units count.
pub fn take_over(
    units: u16,
    plan: &[u16; 256],
    color: &[u16; 256],
    mut parent: [u16; 256],
    mut dist: [u16; 256],
) -> Planned
    ensures parents { result.parent ≡ planned_parents (min units 256) plan.now parent }
    ensures dists { result.dist ≡ planned_dists (min units 256) plan.now color.now dist }
{
    let count = units.min(256);
    for v in 0..count {
        let at = v as usize;
        parent[at] = plan[at];
        dist[at] = climb::steps(plan, color[at], count, v);
    }
    Planned { parent, dist }
}
