// Whether what was found is right, over every object, and what it says.
ghost use Rattle.std.specs.Prelude.{◌≡◌, ℕ, ◌+◌, ◌<◌, ◌≤◌, max, true, ◌==◌, slice_index};
ghost use Rattle.base_lists.specs.Folds as Folds;
ghost use Rattle.base_lists.specs.Tables.{over};
ghost use Rattle.leap_ranking.specs.Ranked.{digits};
ghost use Rattle.leap_ranking.specs.Keys.{rank_in, sum_in, digits_at, key_right};

use table::ABSENT;

// How often all objects ask, and in how many rounds.
#[derive(Drop)]
pub(crate) struct Counted {
    pub(crate) requests: u16,
    pub(crate) rounds: u16,
}

// The rank in a key.
pub(crate) fn rank_in(key: u32) -> u16
    ensures { result ≡ rank_in key }
{
    (key / 65536) as u16
}

// The sum in a key.
pub(crate) fn sum_in(key: u32) -> u16
    ensures { result ≡ sum_in key }
{
    (key % 65536) as u16
}

// The binary digits of a rank.
fn digits(rank: u16) -> u16
    ensures are { result ≡ digits rank }
    ensures few { result ≤ 16 }
{
    if rank == 0 {
        0
    } else {
        16 - rank.leading_zeros() as u16
    }
}

// The key of an object whose predecessor has the key `before`.
fn comes_after(key: u32, before: u32, own: u16) -> bool
    ensures { result ≡ (key == before + (65536 + own)) }
{
    key as u64 == before as u64 + (65536 + own as u64)
}

// An object is the first of its list and has its own sum, or comes one rank after its predecessor and adds its own sum.
fn key_right(arcs: usize, jump: &[u16; 512], sum: &[u16; 512], key: &[u32; 512], a: usize) -> bool
    requires { (arcs ≤ 512) × (a < arcs) }
    ensures { result ≡ key_right arcs jump.now sum.now key.now a }
{
    let before = jump[a];
    if before == ABSENT {
        return key[a] == sum[a] as u32;
    }
    let at = before as usize;
    at < arcs && comes_after(key[a], key[at], sum[a])
}

// Every object.
pub(crate) fn keys_right(arcs: usize, jump: &[u16; 512], sum: &[u16; 512], key: &[u32; 512]) -> bool
    requires { arcs ≤ 512 }
    ensures { result ≡ true → (a : ℕ) → a < arcs →
        key_right arcs jump.now sum.now key.now a ≡ true }
{
    for a in 0..arcs {
        if !key_right(arcs, jump, sum, key, a) {
            return false;
        }
    }
    true
}

// For each object what `part` reads in its key.
pub(crate) fn of_keys<F: Fn(u32) -> u16>(
    arcs: usize,
    key: &[u32; 512],
    mut table: [u16; 512],
    part: F,
) -> [u16; 512]
    requires few { arcs ≤ 512 }
    requires callable { F.IsAlwaysCallable part }
    ensures { (f : ℕ → ℕ) → ((k x : ℕ) → F.post part k x → x ≡ f k) →
        result ≡ over arcs (λ (a : ℕ). f (slice_index key.now a)) table }
{
    for a in 0..arcs {
        table[a] = part(key[a]);
    }
    table
}

// An object asks once for each digit of its rank. Ranks in words of their own are taken several at a time.
pub(crate) fn asked(arcs: usize, rank: &[u16; 512]) -> Counted
    requires { arcs ≤ 512 }
    ensures requests { result.requests ≡ Folds.sum arcs (digits_at rank.now) }
    ensures rounds { result.rounds ≡ Folds.fold max arcs (digits_at rank.now) 0 }
    ensures few { result.rounds ≤ 16 }
{
    let mut requests: u16 = 0;
    let mut rounds: u16 = 0;
    for a in 0..arcs {
        let more = digits(rank[a]);
        requests += more;
        rounds = rounds.max(more);
    }
    Counted { requests, rounds }
}
