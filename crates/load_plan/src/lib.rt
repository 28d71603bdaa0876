// The checks of the load with a table of parents drawn by the planner (document 02, T-05).
#![tactic(auto)]

use table::ABSENT;
use table_values::tables;

mod chains;
mod near;

ghost use Rattle.std.specs.Prelude.{◌≡◌, ◌≤◌};
ghost use Rattle.base_lists.specs.Folds.{some};
ghost use Rattle.spec_rules.specs.Fits.{EndsWithin};
ghost use Rattle.spec_rules.specs.Planned.{plan_unfit};
ghost use Rattle.spec_machine.specs.Load.{planned_load_refusal};
ghost use Rattle.load_plan.specs.Unfit.{stray, tops_differ};

// The number of the first check that fails, 0 where table and parents pass: 4 to 6, 15, 16, 7 to 9, then 17 and 18,
// last 22.
pub fn refusal(units: u16, table: &[u16], levels: &[i16], parents: &[u16]) -> u8
    ensures { result ≡ planned_load_refusal
        (record { units = units; words = table.now; levels = levels.now }) parents.now }
{
    let refused = table::refusal(false, units, table, levels);
    if refused != 0 {
        return refused;
    }
    if parents.len() != units as usize {
        return table_refusals::PLAN_LENGTH;
    }
    let links = (table.len() / 2) as u16;
    if unfit(units, links, table, parents) {
        return table_refusals::PLAN_NO_TREE;
    }
    table::refusal(true, units, table, levels)
}

// 18, from one pass over the links for neighbours, a climb for each unit, and one pass over the links for tops.
fn unfit(units: u16, links: u16, table: &[u16], parents: &[u16]) -> bool
    requires { (units ≤ 256) × (links ≤ 1024) × EndsWithin units links table.now }
    ensures { result ≡ plan_unfit units links table.now parents.now }
{
    let near = near::near(links, table, parents);
    let tops = chains::tops(units, parents);
    let astray = strays(units, parents, &near, &tops);
    let apart = splits(links, table, &tops);
    base_choice::either(astray, apart)
}

// Whether a unit has a parent and no mark, or is below its top.
fn strays(units: u16, parents: &[u16], near: &[u16], tops: &[u16]) -> bool
    ensures { result ≡ some units (stray parents.now near.now tops.now) }
{
    let mut astray = false;
    let mut v = 0;
    while v < units {
        let has = tables::at(parents, v) != ABSENT;
        let bare = tables::at(near, v) == 0;
        let top = tables::at(tops, v);
        let wrong = base_choice::either(base_choice::both(has, bare), v < top);
        astray = base_choice::either(astray, wrong);
        v += 1;
    }
    astray
}

// Whether the ends of a link have different tops.
fn splits(links: u16, table: &[u16], tops: &[u16]) -> bool
    requires { links ≤ 1024 }
    ensures { result ≡ some links (tops_differ table.now tops.now) }
{
    let mut apart = false;
    let mut j = 0;
    while j < links {
        let i = 2 * (j as usize);
        let a = tables::at(tops, base_slices::word(table, i));
        let b = tables::at(tops, base_slices::word(table, i + 1));
        apart = base_choice::either(apart, a != b);
        j += 1;
    }
    apart
}
