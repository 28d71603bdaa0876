// The children of every unit in order, by one scan from the greatest unit down: what follows a tree neighbour is read,
// and not looked for.
ghost use Rattle.std.specs.Prelude.{◌≡◌, ◌≤◌, length};
ghost use Rattle.stage03_tour.specs.Siblings.{Eldest, Past, Later};

use table_values::tables;

// By unit its first child, its next sibling and its first child past its own parent.
#[derive(Drop)]
pub(crate) struct Siblings {
    pub eldest: [u16; 256],
    pub later: [u16; 256],
    pub past: [u16; 256],
}

// A parent's entries are read and stored with a test, for a root's parent is absent.
pub(crate) fn scan(units: u16, parent: &[u16]) -> Siblings
    requires { (units ≤ 256) × (length parent.now ≡ 256) }
    ensures eldest { Eldest 256 units 0 parent.now result.eldest }
    ensures later { Later units 0 parent.now result.later }
    ensures past { Past units 0 parent.now result.past }
{
    let mut eldest = tables::blank();
    let mut later = tables::blank();
    let mut past = tables::blank();
    for w in (0..units).rev() {
        let at = w as usize;
        let p = parent[at];
        let own = tables::at(parent, p);
        let next = tables::at(&eldest, p);
        let first = base_choice::choose(own < w, w, tables::at(&past, p));
        later[at] = next;
        tables::store(&mut eldest, p, w);
        tables::store(&mut past, p, first);
    }
    Siblings {
        eldest,
        later,
        past,
    }
}
