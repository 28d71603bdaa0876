// Least labels handed on along the links that are left, until no label falls.
ghost use Rattle.std.specs.Prelude.{◌≡◌, ◌<◌, ◌≤◌, length};
ghost use Rattle.theory_min_label.specs.MinLabelLaws.{Hears};
ghost use Rattle.theory_min_label.specs.Hands.{Live, lowers, handed, swept, falls, Spread, Settled, Room};

use crate::order;
use base_choice::choose;

// The link from `a` to `b` lowers a label.
fn lowers(forward: bool, a: u16, b: u16, key: &[u32], x: &[u16]) -> bool
    requires { (a < length key.now) × (b < length key.now) × (length x.now ≡ length key.now) }
    ensures { result ≡ lowers forward key.now x.now a b }
{
    let from = choose(forward, a, b);
    let to = choose(forward, b, a);
    (key[a as usize] == key[b as usize]) & (x[from as usize] < x[to as usize])
}

// The link from `a` to `b` hands a label on; whether one fell.
fn hand(forward: bool, a: u16, b: u16, key: &[u32], x: &mut [u16]) -> bool
    requires { (a < length key.now) × (b < length key.now) × (length x.old ≡ length key.now) }
    ensures { x.new ≡ handed forward key.now x.old a b }
{
    if !lowers(forward, a, b, key, x) {
        return false;
    }
    let label = base_slices::word(x, choose(forward, a, b) as usize);
    base_slices::put(x, choose(forward, b, a) as usize, label);
    true
}

// Some link lowers a label. Nothing is stored: a loop without a way out is taken fast.
fn falls(forward: bool, links: &[u16], key: &[u32], x: &[u16]) -> bool
    requires { Room links.now key.now x.now }
    ensures { result ≡ falls forward key.now links.now x.now }
{
    let mut any = false;
    for link in links.chunks_exact(2) {
        any |= lowers(forward, link[0], link[1], key, x);
    }
    any
}

// Every link in turn.
fn sweep(forward: bool, links: &[u16], key: &[u32], x: &mut [u16])
    requires { Room links.now key.now x.old }
    ensures { x.new ≡ swept forward key.now links.now x.old }
{
    for link in links.chunks_exact(2) {
        hand(forward, link[0], link[1], key, x);
    }
}

// A unit joins the queue if its label fell; the queue's end.
fn joined(queue: &mut [u16], end: u16, fell: bool, unit: u16) -> u16
    requires { end ≤ 256 }
    ensures { result ≤ 256 }
{
    base_slices::put(queue, end as usize, unit);
    if fell && end < 256 { end + 1 } else { end }
}

// Links hand a label on, those at the words `first` to `last` of the order; the units whose labels fell join the queue.
fn relax(
    forward: bool,
    links: &[u16],
    order: &[u16],
    first: u16,
    last: u16,
    key: &[u32],
    x: &mut [u16],
    queue: &mut [u16],
    had: u16,
) -> u16
    requires { (had ≤ 256) × Room links.now key.now x.old }
    ensures { (result ≤ 256) × Spread (Hears forward (Live links.now key.now)) x.old
        x.new }
{
    let mut end = had;
    for k in first..last {
        let i = 2 * (order::position(order, k) as usize);
        if links.len() <= i + 1 {
            return end;
        }
        let a = links[i];
        let b = links[i + 1];
        let fell = hand(forward, a, b, key, x);
        end = joined(queue, end, fell, choose(forward, b, a));
    }
    end
}

// Whether a unit is its own label and has no number yet.
fn starts(unit: u16, key: &[u32], x: &[u16]) -> bool {
    let at = unit as usize;
    base_slices::word(x, at) == unit && at < key.len() && key[at] != 65537 * (unit as u32)
}

// A unit that is its own label spreads it as far as it lowers others.
fn flood(
    forward: bool,
    links: &[u16],
    unit: u16,
    order: &[u16],
    key: &[u32],
    x: &mut [u16],
    queue: &mut [u16],
)
    requires { Room links.now key.now x.old }
    ensures { Spread (Hears forward (Live links.now key.now)) x.old
        x.new }
{
    base_slices::put(queue, 0, unit);
    let mut head: u16 = 0;
    let mut end = u16::from(starts(unit, key, x));
    // Stays: the queue grows as it is read, which no range over its places can follow.
    while head < end {
        let next = base_slices::word(queue, head as usize) as usize;
        end = relax(
            forward,
            links,
            order,
            base_slices::word(order, next),
            base_slices::word(order, next + 1),
            key,
            x,
            queue,
            end,
        );
        head += 1;
    }
}

// From the least unit on, so that no label falls twice.
fn search(forward: bool, units: u16, links: &[u16], order: &[u16], key: &[u32], x: &mut [u16])
    requires { Room links.now key.now x.old }
    ensures { Spread (Hears forward (Live links.now key.now)) x.old
        x.new }
{
    let mut queue = [0u16; 256];
    for unit in 0..units {
        flood(forward, links, unit, order, key, x, &mut queue);
    }
}

// The search, and sweeps as long as a label falls: after the search none does.
pub(crate) fn settle(
    forward: bool,
    units: u16,
    links: &[u16],
    order: &[u16],
    key: &[u32],
    x: &mut [u16],
)
    requires { Room links.now key.now x.old }
    ensures { Spread (Hears forward (Live links.now key.now)) x.old
        x.new
        × Settled (Hears forward (Live links.now key.now)) x.new }
{
    search(forward, units, links, order, key, x);
    while falls(forward, links, key, x) {
        sweep(forward, links, key, x);
    }
}
