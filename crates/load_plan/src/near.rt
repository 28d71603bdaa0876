// Units whose parent is a neighbour.
ghost use Rattle.std.specs.Prelude.{◌≡◌, cond, ℕ, ◌<◌, ◌≤◌, get_or};
ghost use Rattle.base_lists.specs.Folds.{some};
ghost use Rattle.spec_rules.specs.Planned.{parent_link};
ghost use Rattle.load_plan.specs.Marks.{marked};

use table_values::tables;

// 1 for each unit that some link joins with its parent, else 0.
pub(crate) fn near(links: u16, table: &[u16], parents: &[u16]) -> [u16; 256]
    requires { links ≤ 1024 }
    ensures { (v : ℕ) → v < 256 →
        get_or result v 0 ≡ cond (some links (parent_link table.now parents.now v)) 1 0 }
{
    let mut near = no_marks();
    let mut j = 0;
    while j < links {
        let i = 2 * (j as usize);
        let a = base_slices::word(table, i);
        let b = base_slices::word(table, i + 1);
        mark(parents, a, b, &mut near);
        mark(parents, b, a, &mut near);
        j += 1;
    }
    near
}

// Unit `v` is marked where `w` is its parent.
fn mark(parents: &[u16], v: u16, w: u16, near: &mut [u16])
    ensures { near.new ≡ marked parents.now v w near.old }
{
    let own = tables::at(near, v);
    let up = tables::at(parents, v);
    let x = base_choice::choose(up == w, 1, own);
    tables::store(near, v, x);
}

// No unit marked.
fn no_marks() -> [u16; 256]
    ensures { (v : ℕ) → v < 256 → get_or result v 0 ≡ 0 }
{
    [0; 256]
}
