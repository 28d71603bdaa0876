// Rounds of the least value, found by a search: the values that units end with, over any table of pairs of units. The
// search is proved safe and no more; tests say whether what it finds is right.
#![tactic(auto)]

ghost use Rattle.std.specs.Prelude.{◌≡◌, IfSome, IfNone};
ghost use Rattle.leap_tests.specs.Found.{Found};

mod neighbours;
mod search;

// The rounds that change something. Values that are not found right stay.
pub fn found(units: u16, pairs: u16, ends: &[u16], value: &mut [u16; 256]) -> Option<u16>
    ensures found { IfSome result (λ rounds. Found units pairs ends.now value.old value.new rounds) }
    ensures stays { IfNone result (value.new ≡ value.old) }
{
    let most = units.min(256);
    let count = pairs.min(1280);
    if ends.len() < 2 * count as usize {
        return None;
    }
    let mut next = [0; 2560];
    let mut key = [search::NONE; 256];
    let mut via = [0; 256];
    let first = neighbours::chained(count, ends, &mut next);
    search::search(most, count, ends, &first, &next, value, &mut key, &mut via);
    leap_tests::tested(units, pairs, ends, &key, &via, value)
}
