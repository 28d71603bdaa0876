// Reads and stores of tables by a word: units, places and links as they stand in other tables.
ghost use Rattle.std.specs.Prelude.{◌≡◌, ℕ, ◌<◌, slice_index, slice_set};
ghost use Rattle.base_lists.specs.Scatter.{op_of, takes_in};

// The entry at `i`.
pub fn at(t: &[u16], i: u16) -> u16
    ensures { result ≡ slice_index t.now i }
{
    base_slices::word(t, i as usize)
}

// `x` at `i`.
pub fn store(t: &mut [u16], i: u16, x: u16)
    ensures { t.new ≡ slice_set t.old i x }
{
    base_slices::put(t, i as usize, x)
}

// A table of absent marks, for a least value by unit or place.
pub fn blank() -> [u16; 256]
    ensures { (i : ℕ) → i < 256 → slice_index result i ≡ 65535 }
{
    [65535; 256]
}

// The same by arc.
pub fn blank_arcs() -> [u16; 512]
    ensures { (i : ℕ) → i < 512 → slice_index result i ≡ 65535 }
{
    [65535; 512]
}

// A table of zeros, for counts by key.
pub fn zeros() -> [u16; 512]
    ensures { (i : ℕ) → i < 512 → slice_index result i ≡ 0 }
{
    [0; 512]
}

// The entry at `a`, below `n`, takes in `x`.
pub fn take_in(greatest: bool, n: u16, t: &mut [u16], a: u16, x: u16)
    ensures { t.new ≡ takes_in (op_of greatest) n t.old a x }
{
    if a < n {
        let own = at(t, a);
        let y = super::op_of(greatest, own, x);
        store(t, a, y);
    }
}
