// The tables of a pass over one-way links (T-11): the labels that it begins with, the marks and the keys that it
// leaves.
#![tactic(auto)]

ghost use Rattle.std.specs.Prelude.{◌≡◌, cond, ℕ, ◌+◌, ◌*◌, ◌<◌, eqb};
ghost use Rattle.base_lists.specs.Tables.{over};
ghost use Rattle.theory_min_label.specs.MinLabel.{NONE, at, source, marked, unfinished};

// Every unit its own label.
pub fn own() -> [u16; 256]
    ensures { (v : ℕ) → v < 256 → at result v ≡ v }
{
    let mut x = [0u16; 256];
    for v in 0..256u16 {
        x[v as usize] = v;
    }
    x
}

// The units that are their own label, and no others.
pub fn sources(f: &[u16]) -> [u16; 256]
    ensures { (v : ℕ) → v < 256 → at result v ≡ source f.now v }
{
    let mut x = [0u16; 256];
    for v in 0..256u16 {
        x[v as usize] = base_choice::choose(
            base_slices::word(f, v as usize) == v,
            v,
            table::ABSENT,
        );
    }
    x
}

// The number of a unit after the pass, from its labels and its number before.
fn number_of(f: u16, b: u16, old: u16) -> u16
    ensures { result ≡ cond (eqb old NONE) (cond (eqb f b) f NONE) old }
{
    base_choice::choose(
        old == table::ABSENT,
        base_choice::choose(f == b, f, table::ABSENT),
        old,
    )
}

// Step 3, marking: a unit whose two labels are equal has its number.
pub fn mark(units: u16, f: &[u16], b: &[u16], out: &mut [u16])
    ensures { out.new ≡ over units (marked f.now b.now out.old)
        out.old }
{
    for v in 0..units {
        let at = v as usize;
        let old = base_slices::word(out, at);
        base_slices::put(
            out,
            at,
            number_of(base_slices::word(f, at), base_slices::word(b, at), old),
        );
    }
}

// The two labels of a unit as one number; where they are equal, one that no other unit has.
pub fn key_of(f: u16, b: u16, unit: u16) -> u32
    ensures { result ≡ cond (eqb f b) (65537 * unit) (f + 65536 * b) }
{
    if f == b {
        65537 * (unit as u32)
    } else {
        (f as u32) + 65536 * (b as u32)
    }
}

// Some unit has no number yet.
pub fn unfinished(units: u16, out: &[u16]) -> bool
    ensures { result ≡ unfinished units out.now }
{
    let mut any = false;
    for v in 0..units {
        any |= base_slices::word(out, v as usize) == table::ABSENT;
    }
    any
}

// No unit has a number.
pub fn clear(units: u16, out: &mut [u16])
    ensures { out.new ≡ over units (λ (v : ℕ). NONE) out.old }
{
    for v in 0..units {
        base_slices::put(out, v as usize, table::ABSENT);
    }
}
