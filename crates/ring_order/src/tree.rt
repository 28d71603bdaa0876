// The tree from the first end of the first link over the links that count, with its units in the order in which they
// came to it: a search in depth by chains of links, of which nothing is promised, then sweeps over all links until one
// adds nothing.
ghost use Rattle.std.specs.Prelude.{◌≡◌};
ghost use Rattle.theory_ears.specs.Present.{sure};
ghost use Rattle.theory_ears.specs.Steps.{leads_out};
ghost use Rattle.theory_ears.specs.Reaching.{Reached, Swept, Spanned, Filled, Rooted};

use ring_tables::{counts, end_a, end_b, has};
use table_values::tables;

// Whether link `j` leads out of the tree.
fn leads_out(marks: &[u8], ends: &[u16], parent: &[u16], j: u16) -> bool
    ensures { result ≡ leads_out (sure marks.now) ends.now parent.now j }
{
    let a = has(parent, end_a(ends, j));
    let b = has(parent, end_b(ends, j));
    counts(marks, j) & base_choice::pick(a, !b, b)
}

// Over link `j`, where it leads out, the tree has one unit more; how many it has.
fn reach(
    marks: &[u8],
    links: u16,
    ends: &[u16],
    j: u16,
    count: u16,
    parent: &mut [u16],
    seq: &mut [u16],
) -> u16
    ensures { Reached (sure marks.now) links ends.now j parent.old
        seq.old count parent.new seq.new result }
{
    if links <= j {
        return count;
    }
    if !leads_out(marks, ends, parent, j) {
        return count;
    }
    let a = end_a(ends, j);
    let b = end_b(ends, j);
    let up = has(parent, a);
    let new = base_choice::choose(up, b, a);
    let old = base_choice::choose(up, a, b);
    tables::store(parent, new, old);
    tables::store(seq, count, new);
    table_values::bounded_sum(count, 1)
}

// One more than the last place that names each unit, and than the place before each that names the same; 0 where there
// is none.
pub(crate) fn chain(links: u16, ends: &[u16], last: &mut [u16], next: &mut [u16]) {
    let total = table_values::bounded_sum(links, links);
    for i in 0..total {
        let v = tables::at(ends, i);
        let before = tables::at(last, v);
        tables::store(next, i, before);
        tables::store(last, v, table_values::bounded_sum(i, 1));
    }
}

// As far as the chains lead, each unit's links before those of the unit that it came from. `cursor` is the place of
// each unit to be looked at next.
fn deepen(
    marks: &[u8],
    links: u16,
    ends: &[u16],
    a: u16,
    b: u16,
    next: &[u16],
    cursor: &mut [u16],
    parent: &mut [u16],
    seq: &mut [u16],
) -> u16
    ensures { Spanned (sure marks.now) links ends.now parent.old
        seq.old 2 parent.new seq.new result }
{
    let mut count = 2;
    let mut v = b;
    for _ in 0..4096 {
        let Some(i) = tables::at(cursor, v).checked_sub(1) else {
            if v == a {
                return count;
            }
            v = tables::at(parent, v);
            continue;
        };
        let after = tables::at(next, i);
        tables::store(cursor, v, after);
        let more = reach(marks, links, ends, i / 2, count, parent, seq);
        v = base_choice::choose(count < more, tables::at(seq, count), v);
        count = more;
    }
    count
}

// Over all links, one after the other.
fn sweep(
    marks: &[u8],
    links: u16,
    ends: &[u16],
    count: u16,
    parent: &mut [u16],
    seq: &mut [u16],
) -> u16
    ensures { Swept (sure marks.now) links ends.now links parent.old
        seq.old count parent.new seq.new result }
{
    let mut c = count;
    for j in 0..links {
        c = reach(marks, links, ends, j, c, parent, seq);
    }
    c
}

// Until a sweep adds nothing.
fn fill(
    marks: &[u8],
    links: u16,
    ends: &[u16],
    count: u16,
    parent: &mut [u16],
    seq: &mut [u16],
) -> u16
    ensures { Filled (sure marks.now) links ends.now parent.old
        seq.old count parent.new seq.new result }
{
    let mut c = count;
    for k in 0..257u16 {
        let more = sweep(marks, links, ends, c, parent, seq);
        if more == c {
            return more;
        }
        c = more;
    }
    c
}

// The tree from `a`, with `b` first, in tables that have no unit yet; how many units it has.
pub(crate) fn span(
    marks: &[u8],
    links: u16,
    ends: &[u16],
    a: u16,
    b: u16,
    next: &[u16],
    cursor: &mut [u16],
    parent: &mut [u16],
    seq: &mut [u16],
) -> u16
    ensures { Rooted (sure marks.now) links ends.now a b parent.old
        seq.old parent.new seq.new result }
{
    tables::store(parent, a, a);
    tables::store(parent, b, a);
    tables::store(seq, 0, a);
    tables::store(seq, 1, b);
    let count = deepen(marks, links, ends, a, b, next, cursor, parent, seq);
    fill(marks, links, ends, count, parent, seq)
}

// The links of the tree's units, each unit's before those of the units that came later.
pub(crate) fn line(count: u16, seq: &[u16], last: &[u16], next: &[u16], row: &mut [u16]) {
    let mut i = 0;
    let mut c = tables::at(last, tables::at(seq, 0));
    let mut k = 0;
    for _ in 0..4096 {
        let Some(place) = c.checked_sub(1) else {
            i = table_values::bounded_sum(i, 1);
            if count <= i {
                return;
            }
            c = tables::at(last, tables::at(seq, i));
            continue;
        };
        tables::store(row, k, place / 2);
        k = table_values::bounded_sum(k, 1);
        c = tables::at(next, place);
    }
}
