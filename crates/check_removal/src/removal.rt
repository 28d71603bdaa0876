// The second survey: one unit or one link after the other is removed, and the groups that are left are looked at.
use super::groups;
use super::groups::NONE;

// The other end of a link at unit `x`.
fn other_end(link: u16, x: u16) -> Option<u16> {
    let (a, b) = (link / 256, link % 256);
    if a == b {
        None
    } else if a == x {
        Some(b)
    } else if b == x {
        Some(a)
    } else {
        None
    }
}

// Removes unit `x`. The group that it was in falls into as many groups as there are joins fewer: where those are two or
// more, two other units that were linked up are parted, and it is a single point. A ring holds two links that meet at
// `x` exactly when their other ends are linked up without `x`, and neighbours on a ring meet so. Labels that begin each
// by itself are therefore right when every unit has been removed.
pub(crate) fn unit(links: &[u16], joins: usize, x: u16, labels: &mut [u16]) -> bool {
    let mut left = [0u16; 256];
    // By group that is left: the first link from `x` into it.
    let mut first = [NONE; 256];
    let fewer = groups::without(links, x, NONE, &mut left);
    for (link, j) in links.iter().zip(0..1024) {
        if let Some(end) = other_end(*link, x) {
            let group = base_slices::word(&left, end as usize) as usize;
            let seen = base_slices::word(&first, group);
            if seen == NONE {
                base_slices::put(&mut first, group, j);
            } else {
                groups::merge(labels, seen, j);
            }
        }
    }
    1 < joins.saturating_sub(fewer)
}

// Removes link `k`: whether its ends are parted, so that it is lone.
pub(crate) fn link(links: &[u16], joins: usize, k: u16) -> bool {
    let mut left = [0u16; 256];
    groups::without(links, NONE, k, &mut left) < joins
}
