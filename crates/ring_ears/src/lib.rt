// The order that grows by ears: from the two ends of the first link, until no link ties two units that hang on
// different units of it.
#![tactic(auto)]

ghost use Rattle.std.specs.Prelude.{◌≡◌, ◌+◌, min, length};
ghost use Rattle.theory_ears.specs.Present.{sure};
ghost use Rattle.theory_ears.specs.Steps.{hanging, ties, moved};
ghost use Rattle.theory_ears.specs.Weaving.{holding, WovenIn, EarOf, Visited, Passed, Followed, Settling, Settles};

use ring_tables::{counts, end_a, end_b, has, lay, on};
use table_values::tables;

// The unit of the order that each unit of the tree hangs on, in the order in which they came to it.
fn hold(count: u16, parent: &[u16], seq: &[u16], pos: &[u16], held: &mut [u16])
    ensures { held.new ≡ holding parent.now seq.now pos.now count
        held.old }
{
    for i in 0..count {
        let v = tables::at(seq, i);
        let above = tables::at(held, tables::at(parent, v));
        let x = base_choice::choose(on(pos, v), v, above);
        tables::store(held, v, x);
    }
}

// Whether link `j` ties.
fn ties(marks: &[u8], ends: &[u16], parent: &[u16], pos: &[u16], held: &[u16], j: u16) -> bool
    ensures { result ≡ ties (sure marks.now) ends.now parent.now pos.now
        held.now j }
{
    let a = end_a(ends, j);
    let b = end_b(ends, j);
    let known = counts(marks, j) & has(parent, a);
    let apart = tables::at(held, a) != tables::at(held, b);
    let within = on(pos, a) & on(pos, b);
    known & apart & !within
}

// How many units from `v` up hang on the order.
fn hanging(units: u16, parent: &[u16], pos: &[u16], v: u16) -> u16
    ensures { result ≡ length (hanging (min (units + 1) 2048) parent.now pos.now v) }
{
    let limit = table_values::bounded_sum(units, 1);
    let mut u = v;
    for k in 0..limit {
        if on(pos, u) {
            return k;
        }
        u = tables::at(parent, u);
    }
    limit
}

// What stands past place `q` moves on by `c`.
fn move_on(units: u16, q: u16, c: u16, pos: &mut [u16])
    ensures { pos.new ≡ moved units q c pos.old }
{
    for v in 0..units {
        let p = tables::at(pos, v);
        let x = base_choice::choose(q < p, table_values::bounded_sum(p, c), p);
        tables::store(pos, v, x);
    }
}

// The way from u's anchor down to `u`, over the link to `v` and up to v's anchor, put in after u's anchor.
fn weave(units: u16, parent: &[u16], held: &[u16], u: u16, v: u16, pos: &mut [u16])
    ensures { WovenIn units parent.now held.now u v pos.old
        pos.new }
{
    let q = tables::at(pos, tables::at(held, u));
    let s = hanging(units, parent, pos, u);
    let t = hanging(units, parent, pos, v);
    let top = table_values::bounded_sum(q, s);
    move_on(units, q, table_values::bounded_sum(s, t), pos);
    lay(parent, s, u, top, false, true, pos);
    lay(
        parent,
        t,
        v,
        table_values::bounded_sum(top, 1),
        true,
        true,
        pos,
    );
}

// The ear over link `j`, after the lower of the two anchors.
fn ear(units: u16, ends: &[u16], parent: &[u16], held: &[u16], j: u16, pos: &mut [u16])
    ensures { EarOf units ends.now parent.now held.now j pos.old
        pos.new }
{
    let a = end_a(ends, j);
    let b = end_b(ends, j);
    let up = tables::at(pos, tables::at(held, a)) < tables::at(pos, tables::at(held, b));
    let u = base_choice::choose(up, a, b);
    let v = base_choice::choose(up, b, a);
    weave(units, parent, held, u, v, pos);
}

// Link `j`: where it ties, its ear is put in.
fn visit(
    marks: &[u8],
    units: u16,
    links: u16,
    ends: &[u16],
    count: u16,
    parent: &[u16],
    seq: &[u16],
    j: u16,
    pos: &mut [u16],
    held: &mut [u16],
)
    ensures { Visited (sure marks.now) units links ends.now count parent.now
        seq.now j pos.old held.old pos.new held.new }
{
    if links <= j {
        return;
    }
    if !ties(marks, ends, parent, pos, held, j) {
        return;
    }
    ear(units, ends, parent, held, j, pos);
    hold(count, parent, seq, pos, held);
}

// All links, one after the other.
fn pass(
    marks: &[u8],
    units: u16,
    links: u16,
    ends: &[u16],
    count: u16,
    parent: &[u16],
    seq: &[u16],
    pos: &mut [u16],
    held: &mut [u16],
)
    ensures { Passed (sure marks.now) units links ends.now count parent.now
        seq.now links pos.old held.old pos.new held.new }
{
    for j in 0..links {
        visit(marks, units, links, ends, count, parent, seq, j, pos, held);
    }
}

// The links of a row, whichever they are.
fn follow(
    marks: &[u8],
    units: u16,
    links: u16,
    ends: &[u16],
    count: u16,
    parent: &[u16],
    seq: &[u16],
    row: &[u16],
    pos: &mut [u16],
    held: &mut [u16],
)
    ensures { Followed (sure marks.now) units links ends.now count parent.now
        seq.now pos.old held.old pos.new held.new }
{
    let total = table_values::bounded_sum(links, links);
    for i in 0..total {
        let j = tables::at(row, i);
        visit(marks, units, links, ends, count, parent, seq, j, pos, held);
    }
}

// Until a pass leaves the order as it was; `b` is its last unit, whose place tells its length.
fn settle(
    marks: &[u8],
    units: u16,
    links: u16,
    ends: &[u16],
    b: u16,
    count: u16,
    parent: &[u16],
    seq: &[u16],
    pos: &mut [u16],
    held: &mut [u16],
)
    ensures { Settling (sure marks.now) units links ends.now b count parent.now
        seq.now pos.old held.old pos.new held.new }
{
    for k in 0..257u16 {
        let before = tables::at(pos, b);
        pass(marks, units, links, ends, count, parent, seq, pos, held);
        let after = tables::at(pos, b);
        if after == before {
            return;
        }
    }
}

// The order grown from what stands on it: first along a row of links, then by passes over all of them.
pub fn grow(
    marks: &[u8],
    units: u16,
    links: u16,
    ends: &[u16],
    b: u16,
    count: u16,
    parent: &[u16],
    seq: &[u16],
    row: &[u16],
    pos: &mut [u16],
    held: &mut [u16],
)
    ensures { Settles (sure marks.now) units links ends.now b count parent.now
        seq.now pos.old held.old pos.new held.new }
{
    hold(count, parent, seq, pos, held);
    follow(
        marks, units, links, ends, count, parent, seq, row, pos, held,
    );
    settle(marks, units, links, ends, b, count, parent, seq, pos, held);
}
