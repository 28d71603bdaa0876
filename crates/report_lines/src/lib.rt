// The lines of a report. Those of all units and of all links stand one after the other: each is written to the rest of
// the slice, past those before it.
#![tactic(auto)]

ghost use Rattle.std.specs.Prelude.{◌≡◌, ◌≤◌, length};
ghost use Rattle.file_frames.specs.Frame.{line_over};
ghost use Rattle.report_lines.specs.Lines.{unit_row, label_row, lines_over};
ghost use Rattle.report_lines.specs.Pairs.{pair_table};

mod lines;
mod pairs;
mod rows;

pub use lines::{head_line, tail_line};

// The line of unit `v`.
fn unit_at(
    pairs: &[u16],
    v: u16,
    color: &[u16],
    parent: &[u16],
    place: &[u16],
    singles: &[u8],
    out: &mut [u8],
)
    requires { (pairs.now ≡ pair_table) × (23 ≤ length out.old) }
    ensures { out.new ≡ line_over
        (unit_row color.now parent.now place.now singles.now v)
        out.old }
{
    let i = v as usize;
    let c = base_slices::word(color, i);
    let p = base_slices::word(parent, i);
    let at = base_slices::word(place, i);
    let single = base_slices::byte(singles, i);
    rows::unit_row(pairs, v, c, p, at, single, out);
}

// The lines of all units; nothing where they do not fit.
pub fn unit_lines(
    units: u16,
    color: &[u16],
    parent: &[u16],
    place: &[u16],
    singles: &[u8],
    out: &mut [u8],
)
    ensures { out.new ≡ lines_over 23 units
        (unit_row color.now parent.now place.now singles.now)
        out.old }
{
    if out.len() < 23 * (units as usize) {
        return;
    }
    let pairs = pairs::table();
    for v in 0..units {
        let at = 23 * (v as usize);
        unit_at(&pairs, v, color, parent, place, singles, &mut out[at..]);
    }
}

// The line of link `j`.
fn link_at(pairs: &[u16], j: u16, label: &[u16], lones: &[u8], out: &mut [u8])
    requires { (pairs.now ≡ pair_table) × (15 ≤ length out.old) }
    ensures { out.new ≡ line_over (label_row label.now lones.now j)
        out.old }
{
    let i = j as usize;
    let x = base_slices::word(label, i);
    let lone = base_slices::byte(lones, i);
    rows::label_row(pairs, j, x, lone, out);
}

// The lines of all links; nothing where they do not fit.
pub fn link_lines(links: u16, label: &[u16], lones: &[u8], out: &mut [u8])
    ensures { out.new ≡ lines_over 15 links (label_row label.now lones.now)
        out.old }
{
    if out.len() < 15 * (links as usize) {
        return;
    }
    let pairs = pairs::table();
    for j in 0..links {
        let at = 15 * (j as usize);
        link_at(&pairs, j, label, lones, &mut out[at..]);
    }
}
