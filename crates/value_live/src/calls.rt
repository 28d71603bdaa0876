// Opening a table, adding a link, withdrawing one. On a refusal of a change the table comes back as given.
ghost use Rattle.std.specs.Prelude.{◌≡◌};
ghost use Rattle.live_table.specs.LiveCalls.{open_answer, add_answer, withdraw_answer};
ghost use Rattle.value_live.specs.View.{of, answer_of};

use super::whole::{Answer, Live};
use super::{changed, given};

impl Live {
    // From load's tables: 4, 5, 6, 15, 16, 7, 8, 9. On a refusal the table has no unit.
    pub fn opened(units: u16, words: &[u16], levels: &[i16]) -> Answer
        ensures { answer_of result ≡ open_answer
            (record { units = units; words = words.now; levels = levels.now }) }
    {
        let number = table::refusal(false, units, words, levels);
        if number != 0 {
            let live = changed::made(0, &[], &[]);
            return Answer { live, number };
        }
        Answer {
            live: changed::made(units, words, levels),
            number,
        }
    }

    // A link at the end: 4, 6, 16, 7, 8, 9, 10 of the table; 6, 16, 7, 8, 9 of the link.
    pub fn add(self, a: u16, b: u16, level: i16) -> Answer
        ensures { answer_of result ≡ add_answer a b level (of self) }
    {
        let number = given::refusal(
            self.units,
            self.links,
            &self.ends,
            &self.levels,
            &self.counts,
        );
        if number != 0 {
            return Answer { live: self, number };
        }
        let j = given::place_in(self.links, &self.ends, a, b);
        let joined = j < self.links as usize;
        let own = given::link_refusal(self.units, self.links, a, b, level, joined);
        if own != 0 {
            return Answer {
                live: self,
                number: own,
            };
        }
        Answer {
            live: changed::longer(self, a, b, level),
            number: 0,
        }
    }

    // The link that joins two units, named in either order: 4, 6, 16, 7, 8, 9, 10 of the table; 7, 8, 21 of the units.
    pub fn withdraw(self, a: u16, b: u16) -> Answer
        ensures { answer_of result ≡ withdraw_answer a b (of self) }
    {
        let number = given::refusal(
            self.units,
            self.links,
            &self.ends,
            &self.levels,
            &self.counts,
        );
        if number != 0 {
            return Answer { live: self, number };
        }
        let j = given::place_in(self.links, &self.ends, a, b);
        let joined = j < self.links as usize;
        let own = given::pair_refusal(self.units, a, b, joined);
        if own != 0 {
            return Answer {
                live: self,
                number: own,
            };
        }
        Answer {
            live: changed::shorter(self, j),
            number: 0,
        }
    }
}
