// Joins of links. Few links are marked: they are looked through 32 at a time.
ghost use Rattle.std.specs.Prelude.{◌≡◌, false, ℕ, ◌≤◌, ◌<◌, get_or};
ghost use Rattle.base_lists.specs.Tables.{over};
ghost use Rattle.spec_rules.specs.Fits.{EndsWithin};
ghost use Rattle.spec_rules.specs.HeardLaws.{hears};
ghost use Rattle.stage09_classes.specs.Propagation.{over_links};

// Over every join of a link, into a table that holds what is said; `linked` marks them.
pub(crate) fn propagate(
    units: u16,
    links: u16,
    ends: &[u16; 2048],
    linked: &[u16; 1024],
    said: &[u16; 256],
    t: &mut [u16; 256],
)
    requires { (units ≤ 256) × (links ≤ 1024) × EndsWithin units links ends.now }
    ensures { t.old ≡ said.now
        → t.new ≡ over units (over_links links ends.now linked.now said.now)
        said.now }
{
    for span in 0..links.div_ceil(32) {
        let from = 32 * span;
        let to = links.min(from + 32);
        if any_marked(linked, from, to) {
            over_span(units, ends, linked, said, from, to, t);
        }
    }
}

// Whether a link from `from` on, before `to`, is marked. Every mark is looked at, without a branch.
fn any_marked(linked: &[u16; 1024], from: u16, to: u16) -> bool
    requires { to ≤ 1024 }
    ensures { result ≡ false → (i : ℕ) → from ≤ i → i < to → get_or linked.now i 0 ≡ 0 }
{
    let mut any = false;
    for j in from..to {
        any |= linked[j as usize] != 0;
    }
    any
}

// Over the links from `from` on, before `to`, after those before them. The ends of a link that is not marked are not
// read.
fn over_span(
    units: u16,
    ends: &[u16; 2048],
    linked: &[u16; 1024],
    said: &[u16; 256],
    from: u16,
    to: u16,
    t: &mut [u16; 256],
)
    requires { (units ≤ 256) × (from ≤ to) × (to ≤ 1024) × EndsWithin units to ends.now }
    ensures { t.old ≡ over units
        (over_links from ends.now linked.now said.now) said.now
        → t.new ≡ over units (over_links to ends.now linked.now said.now)
        said.now }
{
    for j in from..to {
        let at = j as usize;
        if linked[at] == 0 {
            continue;
        }
        let a = ends[2 * at];
        let b = ends[2 * at + 1];
        hear(units, said, a, b, t);
    }
}

// A join of two units: each takes in what the other says.
fn hear(units: u16, said: &[u16; 256], a: u16, b: u16, t: &mut [u16; 256])
    requires { (units ≤ 256) × (a < units) × (b < units) }
    ensures { t.new ≡ hears false units said.now a b t.old }
{
    let at_a = a as usize;
    let at_b = b as usize;
    t[at_a] = t[at_a].min(said[at_b]);
    t[at_b] = t[at_b].min(said[at_a]);
}
