// A search ahead of the rounds: breadth first from the units visited in the round before, along chains of places in the
// table. Nothing is proved of it but that it ends.
ghost use Rattle.std.specs.Prelude.{◌≡◌, ◌<◌, ◌≤◌, length};

use table::ABSENT;

// A distance for each unit, and the unit reached last.
#[derive(Clone, Copy)]
pub struct Found {
    pub far: [u16; 256],
    pub tip: u16,
}

// Nothing is found where all units had a distance.
pub(crate) fn distances(
    units: u16,
    links: u16,
    made: u16,
    ends: &[u16],
    dist: [u16; 256],
) -> Option<Found>
    requires { (units ≤ 256) × (links ≤ 1024) × (length ends.now ≡ 2048) }
{
    let mut far = dist;
    let mut queue = [ABSENT; 256];
    let seeds = begin(units, made.saturating_sub(1), &far, &mut queue);
    let absent = missing(units, &far);
    if absent == 0 {
        return None;
    }
    let mut first = [ABSENT; 256];
    let mut next = [0; 2048];
    chain(links, ends, &mut first, &mut next);
    let count = follow(
        seeds + absent,
        ends,
        &first,
        &next,
        &mut far,
        &mut queue,
        seeds,
    );
    let last = count.saturating_sub(1) as usize;
    let tip = base_slices::word(&queue, last);
    Some(Found { far, tip })
}

// Each unit's chain goes over the places of its neighbours, from the last link to the first; absent ends it.
fn chain(links: u16, ends: &[u16], first: &mut [u16], next: &mut [u16])
    requires { (links ≤ 1024) × (length ends.now ≡ 2048) × (length first.old ≡ 256)
        × (length next.old ≡ 2048) }
{
    for j in 0..links {
        let a = 2 * j;
        let b = a + 1;
        hang(a, b, ends, first, next);
        hang(b, a, ends, first, next);
    }
}

// Place `i` becomes the head of the chain of the unit at place `of`.
fn hang(of: u16, i: u16, ends: &[u16], first: &mut [u16], next: &mut [u16])
    requires { (of < 2048) × (i < 2048) × (length ends.now ≡ 2048) × (length first.old ≡ 256)
        × (length next.old ≡ 2048) }
{
    let place = of as usize;
    let v = (ends[place] % 256) as usize;
    let at = i as usize;
    next[at] = first[v];
    first[v] = i;
}

// The units at this distance stand in the queue.
fn begin(units: u16, here: u16, far: &[u16], queue: &mut [u16]) -> u16
    requires { (units ≤ 256) × (length far.now ≡ 256) × (length queue.old ≡ 256) }
    ensures { result ≤ 256 }
{
    let mut count = 0;
    for v in 0..units {
        queue[count as usize] = v;
        count += u16::from(far[v as usize] == here);
    }
    count
}

// The units without a distance.
fn missing(units: u16, far: &[u16]) -> u16
    requires { (units ≤ 256) × (length far.now ≡ 256) }
    ensures { result ≤ 256 }
{
    let mut count = 0;
    for v in 0..units {
        count += u16::from(far[v as usize] == ABSENT);
    }
    count
}

// The queue, which grows until all that can be reached stand in it.
fn follow(
    all: u16,
    ends: &[u16],
    first: &[u16],
    next: &[u16],
    far: &mut [u16],
    queue: &mut [u16],
    seeds: u16,
) -> u16
    requires { (seeds ≤ 256) × (length ends.now ≡ 2048) × (length first.now ≡ 256) × (length next.now ≡ 2048)
        × (length far.old ≡ 256) × (length queue.old ≡ 256) }
    ensures { result ≤ 256 }
{
    let mut count = seeds;
    let mut k = 0;
    // Stays: no plainer, since the queue grows while it is gone through.
    while k < count {
        if all <= count {
            return count;
        }
        let at = k as usize;
        let u = (queue[at] % 256) as usize;
        let d = far[u].wrapping_add(1);
        count = reach(d, first[u], ends, next, far, queue, count);
        k += 1;
    }
    count
}

// The neighbours in a chain. One that does not fall is cut.
fn reach(
    d: u16,
    head: u16,
    ends: &[u16],
    next: &[u16],
    far: &mut [u16],
    queue: &mut [u16],
    from: u16,
) -> u16
    requires { (from ≤ 256) × (length ends.now ≡ 2048) × (length next.now ≡ 2048) × (length far.old ≡ 256)
        × (length queue.old ≡ 256) }
    ensures { result ≤ 256 }
{
    let mut count = from;
    let mut above = ABSENT;
    let mut i = head;
    while i < above {
        let at = (i % 2048) as usize;
        let w = ends[at] % 256;
        count = meet(w, d, far, queue, count);
        above = i;
        i = next[at];
    }
    count
}

// A unit without a distance takes this one, and stands in the queue.
fn meet(w: u16, d: u16, far: &mut [u16], queue: &mut [u16], count: u16) -> u16
    requires { (w < 256) × (count ≤ 256) × (length far.old ≡ 256) × (length queue.old ≡ 256) }
    ensures { result ≤ 256 }
{
    let at = w as usize;
    if far[at] != ABSENT || 256 <= count {
        return count;
    }
    let free = count as usize;
    far[at] = d;
    queue[free] = w;
    count + 1
}
