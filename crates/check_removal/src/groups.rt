// Groups of what goes together, each marked with the least of it: of units that are linked up, or of links. A link is
// one word, its ends in the high and the low byte. Shares nothing with the stages.
ghost use Rattle.std.specs.Prelude.{◌≤◌};

// No unit, and no link.
pub(crate) const NONE: u16 = 65535;

// Each by itself.
pub(crate) fn alone(marks: &mut [u16]) {
    for (i, mark) in (0..1024).zip(marks.iter_mut()) {
        *mark = i;
    }
}

fn remark(marks: &mut [u16], old: u16, new: u16) {
    for mark in marks.iter_mut() {
        if *mark == old {
            *mark = new;
        }
    }
}

// Makes one group of the groups of `i` and `j`; whether they were two.
pub(crate) fn merge(marks: &mut [u16], i: u16, j: u16) -> bool {
    let one = base_slices::word(marks, i as usize);
    let other = base_slices::word(marks, j as usize);
    if one == other {
        return false;
    }
    remark(marks, one.max(other), one.min(other));
    true
}

// The groups of units that are linked up without unit `x` and link `k`; how often two groups were joined.
pub(crate) fn without(links: &[u16], x: u16, k: u16, marks: &mut [u16]) -> usize {
    alone(marks);
    let mut joins = 0usize;
    for (link, j) in links.iter().zip(0..1024) {
        let (a, b) = (link / 256, link % 256);
        if j != k && a != x && b != x && merge(marks, a, b) {
            joins = joins.saturating_add(1);
        }
    }
    joins
}
