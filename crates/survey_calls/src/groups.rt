// One-way links under the name that C has.
ghost use Rattle.std.specs.Prelude.{◌≡◌, cond, [], ◌∷◌, length, ◌==◌};
ghost use Rattle.theory_min_label.specs.MinLabel.{min_label};
ghost use Rattle.one_way.specs.Numbering.{strong_refusal, strong_reply, strong_numbers, number_of, values_of};

use one_way::Numbering;

// The number of each unit's group into `numbers`: 4 to 9 of ordered pairs, 14 (`one_way::strong`).
pub fn one_way(units: u16, links: &[u16], numbers: &mut [u16]) -> Numbering
    ensures reply { result ≡ strong_reply units links.now numbers.old }
    ensures lent { numbers.new ≡ strong_numbers units links.now numbers.old }
    ensures number { number_of result ≡ strong_refusal units links.now (length numbers.old) }
    ensures values { values_of result ≡ cond
        (strong_refusal units links.now (length numbers.old) == 0)
        ((min_label units links.now numbers.old).1 ∷ []) [] }
{
    one_way::strong(units, links, numbers)
}
