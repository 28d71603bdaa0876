// Repeated links by marks, a bit a pair, in time linear in the links: the definitions are in specs/Marks.antt.
ghost use Rattle.std.specs.Prelude.{◌≡◌};
ghost use Rattle.table.specs.Marks.{pair_at, place_as, marked, mark, found_from};

// The place of a pair of units, the lesser first.
fn pair_at(a: u16, b: u16) -> usize
    ensures { result ≡ pair_at a b }
{
    if a < b {
        256 * (a as usize) + b as usize
    } else {
        256 * (b as usize) + a as usize
    }
}

// The place of a link, as an ordered pair or whichever way round.
fn place(ordered: bool, a: u16, b: u16) -> usize
    ensures { result ≡ place_as ordered a b }
{
    if ordered {
        256 * (a as usize) + b as usize
    } else {
        pair_at(a, b)
    }
}

// Whether the pair at `p` is marked.
fn is_marked(marks: &[u8], p: usize) -> bool
    ensures { result ≡ marked marks.now p }
{
    (base_slices::byte(marks, p / 8) >> ((p % 8) as u8)) & 1 != 0
}

// Marks the pair at `p`.
fn set_mark(marks: &mut [u8], p: usize)
    ensures { marks.new ≡ mark marks.old p }
{
    let old = base_slices::byte(marks, p / 8);
    base_slices::put_byte(marks, p / 8, old | (1u8 << ((p % 8) as u8)));
}

// Whether some link is marked when its turn comes; leaves at the first.
pub(crate) fn found(ordered: bool, table: &[u16], marks: &mut [u8]) -> bool
    ensures { result ≡ found_from (place_as ordered) marks.old table.now }
{
    for j in 0..table.len() / 2 {
        let p = place(ordered, table[2 * j], table[2 * j + 1]);
        if is_marked(marks, p) {
            return true;
        }
        set_mark(marks, p);
    }
    false
}
