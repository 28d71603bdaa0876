// The places of a table that hold a unit, by chains: one pass makes them, and a walk along one meets that unit's links
// or pairs and no other.
ghost use Rattle.std.specs.Prelude.{◌≡◌, ℕ, ◌<◌, length, get_or};
ghost use Rattle.lifting_order.specs.Chains.{Words, Chained};
ghost use Rattle.lifting_order.specs.Marking.{other_of, walked};

// One more than the last place that holds each unit, and than the place before each that holds the same; 0 where there
// is none.
#[derive(Drop)]
pub(crate) struct Chains {
    pub last: [u16; 256],
    pub next: [u16; 2048],
}

// A table of zeros by unit.
pub(crate) fn zeros() -> [u16; 256]
    ensures { (i : ℕ) → i < 256 → get_or result i 0 ≡ 0 }
{
    [0; 256]
}

pub(crate) fn chained(t: &[u16]) -> Chains
    requires { Words t.now }
    ensures { Chained t.now result.last result.next (length t.now) }
{
    let mut last = zeros();
    let mut next = [0u16; 2048];
    for (i, unit) in t.iter().enumerate() {
        let v = *unit as usize;
        let before = base_slices::word(&last, v);
        base_slices::put(&mut next, i, before);
        base_slices::put(&mut last, v, i as u16 + 1);
    }
    Chains { last, next }
}

// The place of the other end, or of the pair's other unit.
fn other(i: usize) -> usize
    requires { i < 2048 }
    ensures { result ≡ other_of i }
{
    if i % 2 == 0 { i + 1 } else { i - 1 }
}

// At each place that holds `v` the entry of the unit at the other place: marked, or one less where `v` is the pair's
// second.
pub(crate) fn walk(mark: bool, t: &[u16], last: &[u16], next: &[u16], v: u16, x: &mut [u16])
    requires { Words t.now × Chained t.now last.now next.now (length t.now) × (v < 256) }
    ensures { x.new ≡ walked mark t.now v x.old }
{
    let mut c = base_slices::word(last, v as usize);
    while c != 0 {
        let past = c as usize;
        let i = past - 1;
        let w = base_slices::word(t, other(i)) as usize;
        let less = base_slices::word(x, w).saturating_sub((i % 2) as u16);
        let new = base_choice::choose(mark, 1, less);
        base_slices::put(x, w, new);
        c = base_slices::word(next, i);
    }
}
