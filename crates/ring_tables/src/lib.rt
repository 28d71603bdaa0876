// What the search of a ring (T-04) reads of its tables, with a test of which links count (T-08): a link counts where
// its mark is 0 or missing.
#![tactic(auto)]

ghost use Rattle.std.specs.Prelude.{◌≡◌, ℕ, ◌<◌, get_or};
ghost use Rattle.table.specs.Table.{end_a, end_b};
ghost use Rattle.theory_ears.specs.Present.{sure};
ghost use Rattle.theory_ears.specs.Steps.{seen, on_order, laid, onward, climb};

use table::ABSENT;
use table_values::tables;

// Link `j` counts.
pub fn counts(marks: &[u8], j: u16) -> bool
    ensures { result ≡ sure marks.now j }
{
    base_slices::byte(marks, j as usize) == 0
}

// The ends of link `j`.
pub fn end_a(ends: &[u16], j: u16) -> u16
    ensures { result ≡ end_a ends.now j }
{
    base_slices::word(ends, 2 * (j as usize))
}

pub fn end_b(ends: &[u16], j: u16) -> u16
    ensures { result ≡ end_b ends.now j }
{
    base_slices::word(ends, 2 * (j as usize) + 1)
}

// The tree has `v`.
pub fn has(parent: &[u16], v: u16) -> bool
    ensures { result ≡ seen parent.now v }
{
    tables::at(parent, v) != ABSENT
}

// The order has `v`.
pub fn on(pos: &[u16], v: u16) -> bool
    ensures { result ≡ on_order pos.now v }
{
    tables::at(pos, v) != 0
}

// For so many units from `v` on, places from `i` up or down: where `placing`, each unit's place in a table by unit,
// else each place's unit in a row.
pub fn lay(next: &[u16], count: u16, v: u16, i: u16, up: bool, placing: bool, out: &mut [u16])
    ensures { out.new ≡ laid placing (onward up) i (climb next.now count v)
        out.old }
{
    let mut u = v;
    let mut x = i;
    for left in (0..count).rev() {
        let p = base_choice::choose(placing, u, x);
        let q = base_choice::choose(placing, x, u);
        tables::store(out, p, q);
        u = tables::at(next, u);
        x = base_choice::choose(up, table_values::bounded_sum(x, 1), x.saturating_sub(1));
    }
}

// Marks by which every link counts.
pub fn unmarked() -> [u8; 1]
    ensures { (j : ℕ) → get_or result j 0 ≡ 0 }
{
    [0; 1]
}

// A table of zeros, by unit or by place.
pub fn zeros<const N: usize>() -> [u16; N]
    ensures { (i : ℕ) → i < N → get_or result i 0 ≡ 0 }
{
    [0; N]
}
