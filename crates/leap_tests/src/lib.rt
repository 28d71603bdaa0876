// Whether what a search found of the least value's rounds is right: of each unit one number, the value that it ends
// with times 65,536 and the rounds in which it gets there. Tests over every pair and every unit.
#![tactic(auto)]

ghost use Rattle.std.specs.Prelude.{◌≡◌, ℕ, ◌<◌, ◌≤◌, max, true, length, slice_index, IfSome, IfNone};
ghost use Rattle.base_lists.specs.Folds.{fold};
ghost use Rattle.base_lists.specs.Tables.{over};
ghost use Rattle.spec_rules.specs.Fits.{EndsWithin};
ghost use Rattle.table.specs.Table.{end_a, end_b};
ghost use Rattle.leap_tests.specs.Found.{last_in, wait_in, Close, leads, led, unit_right, Found};

use table_values::bounds;

// After how many rounds that change something the units end with the values that they have now. `via` has the pair by
// which each unit was reached. Values that are not found right stay.
pub fn tested(
    units: u16,
    pairs: u16,
    ends: &[u16],
    key: &[u32; 256],
    via: &[u16; 256],
    value: &mut [u16; 256],
) -> Option<u16>
    ensures found { IfSome result (λ rounds. Found units pairs ends.now value.old value.new rounds) }
    ensures stays { IfNone result (value.new ≡ value.old) }
{
    if !fits(units, pairs, ends) {
        return None;
    }
    let rounds = furthest(units, key);
    let over_pairs = pairs_right(pairs, ends, key);
    let over_units = units_right(units, pairs, ends, value, key, via);
    if rounds == u16::MAX || !over_pairs || !over_units {
        return None;
    }
    end(units, key, value);
    Some(rounds)
}

// The units are at most 256, the pairs at most 1,280, all there and of units that exist.
fn fits(units: u16, pairs: u16, ends: &[u16]) -> bool
    ensures { result ≡ true → (units ≤ 256) × (pairs ≤ 1280) × EndsWithin units pairs ends.now }
{
    let count = 2 * pairs as usize;
    units <= 256 && pairs <= 1280 && count <= ends.len() && bounds::all_below(units, &ends[..count])
}

// The numbers of the units of every pair are at most one apart. Without a branch.
fn pairs_right(pairs: u16, ends: &[u16], key: &[u32; 256]) -> bool
    requires { EndsWithin 256 pairs ends.now }
    ensures { result ≡ true → (j : ℕ) → j < pairs →
        Close (slice_index key.now (end_a ends.now j))
        (slice_index key.now (end_b ends.now j)) }
{
    let mut most = 0;
    for j in 0..pairs {
        let at = 2 * j as usize;
        let a = ends[at];
        let b = ends[at + 1];
        most = most.max(apart(key[a as usize], key[b as usize]));
    }
    most <= 1
}

// The difference of two numbers.
fn apart(x: u32, y: u32) -> u32
    ensures { result ≤ 1 → Close x y }
{
    x.abs_diff(y)
}

// Pair `j` joins `v` with a unit whose number is one less.
fn led(pairs: u16, ends: &[u16], key: &[u32; 256], j: u16, v: u16) -> bool
    requires { (v < 256) × (pairs ≤ 1280) × EndsWithin 256 pairs ends.now }
    ensures { result ≡ led pairs ends.now key.now j v }
{
    if pairs <= j {
        return false;
    }
    let at = 2 * j as usize;
    let a = ends[at];
    let b = ends[at + 1];
    leads(key, v, a, b)
}

// A pair of `a` and `b` does.
fn leads(key: &[u32; 256], v: u16, a: u16, b: u16) -> bool
    requires { (v < 256) × (a < 256) × (b < 256) }
    ensures { result ≡ leads key.now a b v }
{
    let before = key[v as usize].saturating_sub(1);
    (a == v) & (key[b as usize] == before) | (b == v) & (key[a as usize] == before)
}

// The rounds in a number.
fn wait_in(key: u32) -> u16
    ensures { result ≡ wait_in key }
{
    (key % 65536) as u16
}

// The value in a number.
fn last_in(key: u32) -> u16
    ensures { result ≡ last_in key }
{
    (key / 65536) as u16
}

// A unit has the value that it ends with, or a greater one and a neighbour that gets there a round before it.
fn unit_right(
    pairs: u16,
    ends: &[u16],
    value: &[u16; 256],
    key: &[u32; 256],
    via: &[u16; 256],
    v: u16,
) -> bool
    requires { (v < 256) × (pairs ≤ 1280) × EndsWithin 256 pairs ends.now }
    ensures { result ≡ unit_right pairs ends.now value.now key.now
        via.now v }
{
    let at = v as usize;
    let here = value[at];
    let last = last_in(key[at]);
    if wait_in(key[at]) == 0 {
        return here == last;
    }
    last < here && led(pairs, ends, key, via[at], v)
}

// Every unit.
fn units_right(
    units: u16,
    pairs: u16,
    ends: &[u16],
    value: &[u16; 256],
    key: &[u32; 256],
    via: &[u16; 256],
) -> bool
    requires { (units ≤ 256) × (pairs ≤ 1280) × EndsWithin 256 pairs ends.now }
    ensures { result ≡ true → (v : ℕ) → v < units →
        unit_right pairs ends.now value.now key.now via.now v ≡ true }
{
    let mut right = true;
    for v in 0..units {
        right &= unit_right(pairs, ends, value, key, via, v);
    }
    right
}

// The rounds until the last unit has its value.
fn furthest(units: u16, key: &[u32; 256]) -> u16
    requires { units ≤ 256 }
    ensures { result ≡ fold max units (λ (v : ℕ). wait_in (slice_index key.now v)) 0 }
{
    let mut most = 0;
    for v in 0..units {
        most = most.max(wait_in(key[v as usize]));
    }
    most
}

// Each unit with the value that it ends with.
fn end(units: u16, key: &[u32; 256], value: &mut [u16; 256])
    requires { units ≤ 256 }
    ensures { value.new ≡ over units (λ (v : ℕ). last_in (slice_index key.now v))
        value.old }
{
    for v in 0..units {
        value[v as usize] = last_in(key[v as usize]);
    }
}
