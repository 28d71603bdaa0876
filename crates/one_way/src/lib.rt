// One-way links (document 02, T-11): to each unit the least number of its strongly connected group, by the min-label
// method.
#![tactic(auto)]

ghost use Rattle.std.specs.Prelude.{◌≡◌, cond, [], ◌∷◌, length, ◌==◌};
ghost use Rattle.theory_min_label.specs.MinLabel.{min_label};
ghost use Rattle.one_way.specs.Numbering.{strong_refusal, strong_reply, strong_numbers, number_of, values_of};

mod labels;
mod order;
mod pass;

// What the survey replies: the number of passes, or the number of a refusal.
#[derive(Clone, Copy)]
pub enum Numbering {
    Passes(u16),
    Refused(u8),
}

// The numbers of the units into the first words of a slice: 4 to 9 of ordered pairs, 14. On a refusal nothing changes;
// what stands past the numbers stays.
pub fn strong(units: u16, links: &[u16], numbers: &mut [u16]) -> Numbering
    ensures reply { result ≡ strong_reply units links.now numbers.old }
    ensures lent { numbers.new ≡ strong_numbers units links.now numbers.old }
    ensures number { number_of result ≡ strong_refusal units links.now (length numbers.old) }
    ensures values { values_of result ≡ cond
        (strong_refusal units links.now (length numbers.old) == 0)
        ((min_label units links.now numbers.old).1 ∷ []) [] }
{
    let refused = refusal(units, links, numbers.len());
    if refused != 0 {
        return Numbering::Refused(refused);
    }
    let made = pass::all(units, links, numbers);
    Numbering::Passes(made)
}

// The number of the first check that fails, 0 where all pass.
fn refusal(units: u16, links: &[u16], words: usize) -> u8
    ensures { result ≡ strong_refusal units links.now words }
{
    let number = table::pair_refusal(units, links);
    if number != 0 {
        return number;
    }
    if words < units as usize {
        table_refusals::TOO_SHORT
    } else {
        table_refusals::DONE
    }
}
