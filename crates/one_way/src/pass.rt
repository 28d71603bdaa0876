// One pass: labels forward and backward, marks, and the keys that tell which links remain; and passes until every unit
// has its number.
ghost use Rattle.std.specs.Prelude.{◌≡◌, ℕ, ◌<◌, ◌≤◌, length};
ghost use Rattle.base_lists.specs.Tables.{over};
ghost use Rattle.theory_min_label.specs.MinLabel.{at, passes, min_label};
ghost use Rattle.theory_min_label.specs.Spread.{Least};
ghost use Rattle.theory_min_label.specs.MinLabelLaws.{Hears};
ghost use Rattle.theory_min_label.specs.Hands.{Live, Site, key_of};
ghost use Rattle.theory_min_label.specs.Keys.{Passed};

use crate::{labels, order};
use one_way_tables::{clear, key_of, mark, own, sources, unfinished};

// Steps 1 and 2: the least labels forward or backward, from the first ones in `x`.
fn least(forward: bool, units: u16, links: &[u16], order: &[u16], key: &[u32], x: &mut [u16])
    requires { Site units links.now × (length key.now ≡ 256) × (length x.old ≡ 256) }
    ensures { (first : ℕ → ℕ) → ((v : ℕ) → v < 256 → at x.old v ≡ first v)
        → Least units (Hears forward (Live links.now key.now)) first (at x.new) }
{
    labels::settle(forward, units, links, order, key, x);
}

// Step 4, removal: links whose ends now differ in their key are gone.
fn rekey(units: u16, f: &[u16], b: &[u16], key: &mut [u32])
    requires { units ≤ length key.old }
    ensures { key.new ≡ over units (key_of f.now b.now) key.old }
{
    for v in 0..units {
        let at = v as usize;
        key[at] = key_of(base_slices::word(f, at), base_slices::word(b, at), v);
    }
}

// One pass over the links that are left.
fn pass(units: u16, links: &[u16], ahead: &[u16], back: &[u16], key: &mut [u32], out: &mut [u16])
    requires { Site units links.now × (length key.old ≡ 256) }
    ensures { Passed units links.now key.old key.new out.old
        out.new }
{
    let mut f = own();
    least(true, units, links, ahead, key, &mut f);
    let mut b = sources(&f);
    least(false, units, links, back, key, &mut b);
    mark(units, &f, &b, out);
    rekey(units, &f, &b, key);
}

// Passes until every unit has its number; how many.
fn passes(units: u16, links: &[u16], ahead: &[u16], back: &[u16], out: &mut [u16]) -> u16
    requires { Site units links.now }
    ensures { (out.new ≡ (passes units units links.now out.old).0)
        × (result ≡ (passes units units links.now out.old).1) }
{
    let mut key = [65536u32; 256];
    for made in 0..units {
        if !unfinished(units, out) {
            return made;
        }
        pass(units, links, ahead, back, &mut key, out);
    }
    units
}

// The numbers of all units; how many passes they took.
pub(crate) fn all(units: u16, links: &[u16], out: &mut [u16]) -> u16
    requires { Site units links.now }
    ensures { (out.new ≡ (min_label units links.now out.old).0)
        × (result ≡ (min_label units links.now out.old).1) }
{
    clear(units, out);
    let mut ahead = [0u16; 1281];
    order::laid(true, links, &mut ahead);
    let mut back = [0u16; 1281];
    order::laid(false, links, &mut back);
    passes(units, links, &ahead, &back, out)
}
