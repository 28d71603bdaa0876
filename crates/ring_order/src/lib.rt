// The order that a ring is taken from (T-04): from the ends of a link, over the tree of the links that count, by its
// ears.
#![tactic(auto)]

ghost use Rattle.theory_ears.specs.Present.{sure};
ghost use Rattle.theory_ears.specs.Found.{Ordered};

use ring_tables::{end_a, end_b, zeros};
use table_values::tables;

mod tree;

// The grown order from the ends of link `i`, in a table of zeros.
pub fn ordered(marks: &[u8], units: u16, links: u16, ends: &[u16], i: u16, pos: &mut [u16])
    ensures { Ordered (sure marks.now) units links ends.now i pos.old
        pos.new }
{
    let a = end_a(ends, i);
    let b = end_b(ends, i);
    let mut last = zeros::<256>();
    let mut next = zeros::<2048>();
    tree::chain(links, ends, &mut last, &mut next);
    let mut cursor = last;
    let mut parent = tables::blank();
    let mut seq = zeros::<256>();
    let count = tree::span(
        marks,
        links,
        ends,
        a,
        b,
        &next,
        &mut cursor,
        &mut parent,
        &mut seq,
    );
    let mut row = zeros::<2048>();
    tree::line(count, &seq, &last, &next, &mut row);
    let mut held = zeros::<256>();
    tables::store(pos, a, 1);
    tables::store(pos, b, 2);
    ring_ears::grow(
        marks, units, links, ends, b, count, &parent, &seq, &row, pos, &mut held,
    );
}
