// The report of a finished survey, its lines laid down one after the other.
ghost use Rattle.std.specs.Prelude.{◌≡◌, ◌≤◌, length};
ghost use Rattle.base_lists.specs.Folds.{count};
ghost use Rattle.spec_rules.specs.Labels.{single, lone};
ghost use Rattle.spec_machine.specs.Report.{report_length};
ghost use Rattle.report_write.specs.ReportWritten.{unit_lines, link_lines, parts_down, parts_over};

// The lines of all units, and the number of single points.
fn unit_part<'a>(
    units: u16,
    links: u16,
    ends: &'a [u16],
    label: &'a [u16],
    color: &'a [u16],
    parent: &'a [u16],
    place: &'a [u16],
    out: &mut [u8],
) -> u16
    requires { units ≤ 256 }
    ensures singles { result ≡ count units (single links ends.now label.now) }
    ensures lines { out.new
        ≡ unit_lines units links ends.now label.now color.now parent.now
        place.now out.old }
{
    let singles = report_flags::singles(units, links, ends, label);
    report_lines::unit_lines(units, color, parent, place, &singles, out);
    report_flags::count_flags(units, &singles)
}

// The lines of all links, and the number of lone links.
fn link_part(links: u16, label: &[u16], out: &mut [u8]) -> u16
    requires { links ≤ 1024 }
    ensures lones { result ≡ count links (lone links label.now) }
    ensures lines { out.new ≡ link_lines links label.now out.old }
{
    let lones = report_flags::lones(links, label);
    report_lines::link_lines(links, label, &lones, out);
    report_flags::count_flags(links, &lones)
}

// The report: unit lines are written to the rest of the slice after the first line, link lines to the rest after those.
fn all<'a>(
    units: u16,
    links: u16,
    rounds: u16,
    requests: u16,
    ends: &'a [u16],
    label: &'a [u16],
    color: &'a [u16],
    parent: &'a [u16],
    place: &'a [u16],
    out: &mut [u8],
)
    requires { (units ≤ 256) × (links ≤ 1024) × (report_length units links ≤ length out.old) }
    ensures { out.new ≡ parts_down units links rounds requests ends.now label.now
        color.now parent.now place.now out.old }
{
    let unit_end = 13 + 23 * (units as usize);
    let link_end = unit_end + 15 * (links as usize);
    report_lines::head_line(rounds, requests, out);
    let singles = unit_part(
        units,
        links,
        ends,
        label,
        color,
        parent,
        place,
        &mut out[13..],
    );
    let lones = link_part(links, label, &mut out[unit_end..]);
    report_lines::tail_line(singles, lones, &mut out[link_end..]);
}

// The report at the front of the slice; nothing where it does not fit, or a count is past its table, as in no
// well-formed state.
pub fn report_lines<'a>(
    units: u16,
    links: u16,
    rounds: u16,
    requests: u16,
    ends: &'a [u16],
    label: &'a [u16],
    color: &'a [u16],
    parent: &'a [u16],
    place: &'a [u16],
    out: &mut [u8],
)
    ensures { out.new ≡ parts_over units links rounds requests ends.now label.now
        color.now parent.now place.now out.old }
{
    if 256 < units {
        return;
    }
    if 1024 < links {
        return;
    }
    if out.len() < 26 + 23 * (units as usize) + 15 * (links as usize) {
        return;
    }
    all(
        units, links, rounds, requests, ends, label, color, parent, place, out,
    );
}
