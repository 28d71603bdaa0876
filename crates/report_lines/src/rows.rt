// One unit's or one link's line over the front of a slice that holds it, by the table of pairs: no branch, and no test
// of an index.
ghost use Rattle.std.specs.Prelude.{◌≡◌, ◌+◌, ◌/◌, ◌%◌, ◌≤◌, length};
ghost use Rattle.file_frames.specs.Frame.{sum_of, line_over};
ghost use Rattle.file_frames.specs.Bodies.{unit_body, label_body};
ghost use Rattle.report_lines.specs.Pairs.{pair_table};

use super::pairs;
use file_frames::kinds;

// The sum with both bytes of a number more, in eight bits.
fn with_word(sum: u8, w: u16) -> u8
    ensures { result ≡ (sum + w / 256 % 256 + w % 256) % 256 }
{
    let [high, low] = w.to_be_bytes();
    sum.wrapping_add(high).wrapping_add(low)
}

// The sum of the bytes of a unit's line.
fn unit_sum(unit: u16, color: u16, parent: u16, place: u16, single: u8) -> u8
    ensures { result ≡ sum_of (unit_body unit color parent place single) % 256 }
{
    let named = with_word(with_word(kinds::UNIT, unit), color);
    with_word(with_word(named, parent), place).wrapping_add(single)
}

// The sum of the bytes of a link's line.
fn label_sum(position: u16, label: u16, lone: u8) -> u8
    ensures { result ≡ sum_of (label_body position label lone) % 256 }
{
    with_word(with_word(kinds::LABEL, position), label).wrapping_add(lone)
}

// 12: unit, colour, parent, place, and 1 for a single point, else 0.
pub(crate) fn unit_row(
    pairs: &[u16],
    unit: u16,
    color: u16,
    parent: u16,
    place: u16,
    single: u8,
    out: &mut [u8],
)
    requires { (pairs.now ≡ pair_table) × (23 ≤ length out.old) }
    ensures { out.new ≡ line_over (unit_body unit color parent place single) out.old }
{
    let sum = unit_sum(unit, color, parent, place, single);
    pairs::put(pairs, kinds::UNIT, 0, out);
    pairs::put_word(pairs, unit, 2, out);
    pairs::put_word(pairs, color, 6, out);
    pairs::put_word(pairs, parent, 10, out);
    pairs::put_word(pairs, place, 14, out);
    pairs::put(pairs, single, 18, out);
    pairs::close(pairs, sum, 20, out);
}

// 13: position, label, and 1 if lone, else 0.
pub(crate) fn label_row(pairs: &[u16], position: u16, label: u16, lone: u8, out: &mut [u8])
    requires { (pairs.now ≡ pair_table) × (15 ≤ length out.old) }
    ensures { out.new ≡ line_over (label_body position label lone) out.old }
{
    let sum = label_sum(position, label, lone);
    pairs::put(pairs, kinds::LABEL, 0, out);
    pairs::put_word(pairs, position, 2, out);
    pairs::put_word(pairs, label, 6, out);
    pairs::put(pairs, lone, 10, out);
    pairs::close(pairs, sum, 12, out);
}
