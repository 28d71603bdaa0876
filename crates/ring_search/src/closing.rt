// The ring from an order: up from the second link to the order's last unit, and down from it to the first.
ghost use Rattle.std.specs.Prelude.{◌≡◌, ℕ, ◌<◌, true, false, eqb, length, MatchOption};
ghost use Rattle.spec_rules.specs.Basics.{at};
ghost use Rattle.theory_ears.specs.Present.{sure};
ghost use Rattle.theory_ears.specs.Sides.{within};
ghost use Rattle.theory_ears.specs.Closing.{serves};
ghost use Rattle.theory_ears.specs.Upright.{chain};
ghost use Rattle.theory_ears.specs.Rows.{Closed};
ghost use Rattle.theory_ears.specs.Found.{LeansOne, Leans};

use ring_tables::{counts, end_a, end_b, lay, on};
use table_values::tables;

// Link `j` counts, and both of its ends are on the order.
fn within(marks: &[u8], ends: &[u16], pos: &[u16], j: u16) -> bool
    ensures { result ≡ within (sure marks.now) ends.now pos.now j }
{
    let a = on(pos, end_a(ends, j));
    let b = on(pos, end_b(ends, j));
    counts(marks, j) & (a & b)
}

// Link `j`, where it is within the order: each of its ends leans on the other.
fn lean_one(marks: &[u8], ends: &[u16], pos: &[u16], j: u16, low: &mut [u16], high: &mut [u16])
    ensures { LeansOne (sure marks.now) ends.now pos.now j low.old
        high.old low.new high.new }
{
    if !within(marks, ends, pos, j) {
        return;
    }
    let a = end_a(ends, j);
    let b = end_b(ends, j);
    let up = tables::at(pos, a) < tables::at(pos, b);
    let lower = base_choice::choose(up, a, b);
    let higher = base_choice::choose(up, b, a);
    tables::store(low, higher, lower);
    tables::store(high, lower, higher);
}

// A lower and a higher unit beside each of the order that has them.
pub(crate) fn lean(
    marks: &[u8],
    links: u16,
    ends: &[u16],
    pos: &[u16],
    low: &mut [u16],
    high: &mut [u16],
)
    ensures { Leans (sure marks.now) links ends.now pos.now links
        low.old high.old low.new high.new }
{
    for j in 0..links {
        lean_one(marks, ends, pos, j, low, high);
    }
}

// Whether link `k` may be the second: link `j`, or any other than `i` where `j` is `i`.
fn serves(marks: &[u8], ends: &[u16], pos: &[u16], i: u16, j: u16, k: u16) -> bool
    ensures { result ≡ serves (sure marks.now) ends.now pos.now i j k }
{
    within(marks, ends, pos, k) & base_choice::pick(i == j, k != i, k == j)
}

// The first link that may be the second.
pub(crate) fn second(
    marks: &[u8],
    links: u16,
    ends: &[u16],
    pos: &[u16],
    i: u16,
    j: u16,
) -> Option<u16>
    ensures { MatchOption result
        ((q : ℕ) → q < links → serves (sure marks.now) ends.now pos.now i j q ≡ false)
        (λ k. (k < links) × (serves (sure marks.now) ends.now pos.now i j k ≡ true)) }
{
    (0..links).find(|k| serves(marks, ends, pos, i, j, *k))
}

// How many units stand from `v` on before `stop`.
fn steps(limit: u16, next: &[u16], stop: u16, v: u16) -> u16
    ensures { result ≡ length (chain (at next.now) (λ (z : ℕ). eqb z stop) limit v) }
{
    let mut u = v;
    for k in 0..limit {
        if u == stop {
            return k;
        }
        u = tables::at(next, u);
    }
    limit
}

// a, b, back along the way up from `d` to `b`, then down from `c` to `a`; how many units.
pub(crate) fn close(
    units: u16,
    low: &[u16],
    high: &[u16],
    a: u16,
    b: u16,
    c: u16,
    d: u16,
    out: &mut [u16],
) -> u16
    ensures { Closed units low.now high.now a b c d out.old
        out.new result }
{
    let s = steps(units, high, b, d);
    let t = steps(units, low, a, c);
    tables::store(out, 0, a);
    tables::store(out, 1, b);
    lay(
        high,
        s,
        d,
        table_values::bounded_sum(s, 1),
        false,
        false,
        out,
    );
    let at = table_values::bounded_sum(s, 2);
    lay(low, t, c, at, true, false, out);
    table_values::bounded_sum(at, t)
}
