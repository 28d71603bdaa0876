// The walk: from the first object of each list along those that follow. What it finds of an object is one number, its
// key: the rank times 65,536 and the sum. Nothing is proved of it but that it ends, and reads and stores within its
// tables.
ghost use Rattle.std.specs.Prelude.{◌<◌, ◌≤◌};

use table::ABSENT;

// The follower of each object; the objects without a predecessor, which begin the lists; and their number.
fn followers(
    arcs: usize,
    jump: &[u16; 512],
    next: &mut [u16; 512],
    firsts: &mut [u16; 512],
) -> usize
    requires { arcs ≤ 512 }
    ensures { result ≤ 512 }
{
    let mut count: usize = 0;
    for a in 0..arcs {
        let before = jump[a] as usize;
        if before < 512 {
            next[before] = a as u16;
        } else {
            firsts[count] = a as u16;
            count += 1;
        }
    }
    count
}

// The list that begins with object `begin`: the first has its own sum as its key, each further one rank more.
fn follow(begin: u16, sum: &[u16; 512], next: &[u16; 512], key: &mut [u32; 512]) {
    let mut a = begin as usize;
    if 512 <= a {
        return;
    }
    let mut here = sum[a] as u32;
    for _ in 0..512 {
        key[a] = here;
        a = next[a] as usize;
        if 512 <= a {
            return;
        }
        here = here.wrapping_add(65536 + sum[a] as u32);
    }
}

// Every list.
pub(crate) fn walk(arcs: usize, jump: &[u16; 512], sum: &[u16; 512]) -> [u32; 512]
    requires { arcs ≤ 512 }
{
    let mut next = [ABSENT; 512];
    let mut firsts = [0; 512];
    let mut key = [0; 512];
    let count = followers(arcs, jump, &mut next, &mut firsts);
    for begin in &firsts[..count] {
        follow(*begin, sum, &next, &mut key);
    }
    key
}
