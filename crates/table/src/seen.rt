// Units without a link by marks, a byte a unit, in time linear in the links and the units: the definitions are in
// specs/Seen.antt.
ghost use Rattle.std.specs.Prelude.{◌≡◌};
ghost use Rattle.table.specs.Seen.{ends_seen, some_blank};

// Marks the two ends of every link.
pub(crate) fn mark_ends(table: &[u16], marks: &mut [u8])
    ensures { marks.new ≡ ends_seen marks.old table.now }
{
    for j in 0..table.len() / 2 {
        let a = table[2 * j] as usize;
        let b = table[2 * j + 1] as usize;
        base_slices::put_byte(marks, a, 1);
        base_slices::put_byte(marks, b, 1);
    }
}

// Whether one of the first `units` marks is blank.
pub(crate) fn some_blank(units: u16, marks: &[u8]) -> bool
    ensures { result ≡ some_blank units marks.now }
{
    let mut blank = false;
    for v in 0..units {
        blank |= base_slices::byte(marks, v as usize) == 0;
    }
    blank
}
