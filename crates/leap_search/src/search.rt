// The search: from each unit that none has reached, the least first, over chains of neighbours. What it finds of a unit
// is one number, the value that it ends with times 65,536 and the rounds in which it gets there. Nothing is proved of
// it but that it ends, and reads and stores within its tables.
ghost use Rattle.std.specs.Prelude.{◌*◌, ◌≤◌, ◌<◌, length};
ghost use Rattle.leap_search.specs.Chains.{Chained};

// The number of a unit that was not reached.
pub(crate) const NONE: u32 = u32::MAX;

// The number of a unit that has the value with which it ends.
fn there(value: u16) -> u32 {
    65536 * (value as u32)
}

// The number of a unit reached from one whose number is `from`: no round where it has the value already.
fn reached(from: u32, value: u16) -> u32 {
    let last = from / 65536;
    if last == value as u32 {
        65536 * last
    } else {
        from.saturating_add(1)
    }
}

// Unit `w`, which none has reached, is reached by a pair from a unit whose number is `from`, and joins the queue.
fn visit(
    w: u16,
    pair: u16,
    from: u32,
    value: &[u16; 256],
    key: &mut [u32; 256],
    via: &mut [u16; 256],
    queue: &mut [u16; 256],
    end: u16,
) -> u16
    requires { w < 256 }
    ensures { result ≤ 256 }
{
    if 256 <= end {
        return 256;
    }
    let at = w as usize;
    key[at] = reached(from, value[at]);
    via[at] = pair;
    queue[end as usize] = w;
    end + 1
}

// The neighbours of unit `u`.
fn reach(
    u: u16,
    pairs: u16,
    ends: &[u16],
    first: &[u16; 256],
    next: &[u16],
    value: &[u16; 256],
    key: &mut [u32; 256],
    via: &mut [u16; 256],
    queue: &mut [u16; 256],
    had: u16,
) -> u16
    requires { (u < 256) × (had ≤ 256) × (2 * pairs ≤ length ends.now) × (2 * pairs ≤ length next.now)
        × Chained (2 * pairs) first.now next.now }
    ensures { result ≤ 256 }
{
    let from = key[u as usize];
    let mut end = had;
    let mut p = first[u as usize];
    while p != 0 {
        let i = p - 1;
        let at = i as usize;
        let w = ends[at] % 256;
        p = next[at];
        if key[w as usize] == NONE {
            end = visit(w, i / 2, from, value, key, via, queue, end);
        }
    }
    end
}

// The queue from `start` on, until each unit is in it.
fn follow(
    units: u16,
    pairs: u16,
    start: u16,
    ends: &[u16],
    first: &[u16; 256],
    next: &[u16],
    value: &[u16; 256],
    key: &mut [u32; 256],
    via: &mut [u16; 256],
    queue: &mut [u16; 256],
    had: u16,
) -> u16
    requires { (had ≤ 256) × (2 * pairs ≤ length ends.now) × (2 * pairs ≤ length next.now)
        × Chained (2 * pairs) first.now next.now }
    ensures { result ≤ 256 }
{
    let mut end = had;
    let mut k = start;
    // Stays: no plainer, since the queue grows while it is followed.
    while k < end && end < units {
        let u = queue[k as usize] % 256;
        end = reach(u, pairs, ends, first, next, value, key, via, queue, end);
        k += 1;
    }
    end
}

// From unit `v`, if none has reached it.
fn begin(
    units: u16,
    pairs: u16,
    v: u16,
    ends: &[u16],
    first: &[u16; 256],
    next: &[u16],
    value: &[u16; 256],
    key: &mut [u32; 256],
    via: &mut [u16; 256],
    queue: &mut [u16; 256],
    had: u16,
) -> u16
    requires { (v < 256) × (had ≤ 256) × (2 * pairs ≤ length ends.now) × (2 * pairs ≤ length next.now)
        × Chained (2 * pairs) first.now next.now }
    ensures { result ≤ 256 }
{
    let at = v as usize;
    if key[at] != NONE {
        return had;
    }
    let from = there(value[at]);
    let end = visit(v, 0, from, value, key, via, queue, had);
    follow(
        units, pairs, had, ends, first, next, value, key, via, queue, end,
    )
}

// From each unit, until each is reached.
pub(crate) fn search(
    units: u16,
    pairs: u16,
    ends: &[u16],
    first: &[u16; 256],
    next: &[u16],
    value: &[u16; 256],
    key: &mut [u32; 256],
    via: &mut [u16; 256],
)
    requires { (units ≤ 256) × (2 * pairs ≤ length ends.now) × (2 * pairs ≤ length next.now)
        × Chained (2 * pairs) first.now next.now }
{
    let mut queue = [0; 256];
    let mut end = 0;
    for v in 0..units {
        if units <= end {
            break;
        }
        end = begin(
            units, pairs, v, ends, first, next, value, key, via, &mut queue, end,
        );
    }
}
