// The ring through two links (T-04), over plain tables and a test of which links count (T-08): a link counts where its
// mark is 0 or missing.
#![tactic(auto)]

ghost use Rattle.std.specs.Prelude.{◌≡◌, drop};
ghost use Rattle.theory_ears.specs.Present.{sure};
ghost use Rattle.theory_ears.specs.Found.{RingTold};
ghost use Rattle.ring_search.specs.Front.{RingFront, RingedTold};

use ring_tables::{counts, end_a, end_b, zeros};
use table_values::tables;

mod closing;

// The units of a ring that holds links `i` and `j`, the two ends of `i` in front, and how many they are; 0 where no
// ring holds both. Words past so many stay, whatever the table is.
pub fn ring(
    marks: &[u8],
    units: u16,
    links: u16,
    ends: &[u16],
    i: u16,
    j: u16,
    out: &mut [u16],
) -> u16
    ensures told { RingFront (sure marks.now) units links ends.now i j
        out.old out.new result }
    ensures past { drop result out.new ≡ drop result out.old }
{
    let mut row = zeros::<256>();
    let count = found(marks, units, links, ends, i, j, &mut row);
    base_copies::lay_first(count, &row, out);
    count
}

// Whether a ring of the links that count holds both.
pub fn ringed(marks: &[u8], units: u16, links: u16, ends: &[u16], i: u16, j: u16) -> bool
    ensures { RingedTold units links ends.now i j (sure marks.now) result }
{
    let mut row = zeros::<256>();
    found(marks, units, links, ends, i, j, &mut row) != 0
}

// The ring in a row of 256 words, whose words past the ring may change.
fn found(marks: &[u8], units: u16, links: u16, ends: &[u16], i: u16, j: u16, out: &mut [u16]) -> u16
    ensures { RingTold (sure marks.now) units links ends.now i j out.old
        out.new result }
{
    if !counts(marks, i) {
        return 0;
    }
    let mut pos = zeros::<256>();
    ring_order::ordered(marks, units, links, ends, i, &mut pos);
    let Some(k) = closing::second(marks, links, ends, &pos, i, j) else {
        return 0;
    };
    let mut low = zeros::<256>();
    let mut high = zeros::<256>();
    closing::lean(marks, links, ends, &pos, &mut low, &mut high);
    let c = end_a(ends, k);
    let d = end_b(ends, k);
    let up = tables::at(&pos, c) < tables::at(&pos, d);
    let from = base_choice::choose(up, c, d);
    let to = base_choice::choose(up, d, c);
    closing::close(
        units,
        &low,
        &high,
        end_a(ends, i),
        end_b(ends, i),
        from,
        to,
        out,
    )
}
