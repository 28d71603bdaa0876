// The kept test of a state's table and clock (document 01: n and links pass 4 to 9, the stage is 1 to 11, the counts
// are within their limits).
ghost use Rattle.std.specs.Prelude.{◌≡◌, true, ◌&&◌, ◌≤◌, take};
ghost use Rattle.table.specs.Table.{bare_refusal};
ghost use Rattle.spec_machine.specs.WellFormed.{table_ok, made_ok, clock_ok};

use super::ceilings;
use spec_state::Clock;

// Both tests. Only a table that passes has units few enough for ceilings.
pub fn front_ok(units: u16, links: u16, ends: &[u16], c: Clock) -> bool
    ensures { result ≡ (table_ok units links ends.now && clock_ok units c) }
{
    table_ok(units, links, ends) && clock_ok(units, c)
}

// The first words of the table, or all that are there, pass 4 to 9.
fn table_ok(units: u16, links: u16, ends: &[u16]) -> bool
    ensures exact { result ≡ table_ok units links ends.now }
    ensures few { result ≡ true → units ≤ 256 }
{
    if 1024 < links {
        return false;
    }
    refusal_of(units, 2 * (links as usize), ends) == 0
}

// The number of the first check that the first words fail.
fn refusal_of(units: u16, words: usize, ends: &[u16]) -> u8
    ensures { result ≡ bare_refusal units (take words ends.now) }
{
    if ends.len() < words {
        return table::bare_refusal(units, ends);
    }
    table::bare_refusal(units, &ends[..words])
}

fn clock_ok(units: u16, c: Clock) -> bool
    requires { units ≤ 256 }
    ensures { result ≡ clock_ok units c }
{
    if c.stage < 1 || Clock::FINISHED < c.stage {
        return false;
    }
    made_ok(units, c) & (c.rounds <= Clock::MAX_ROUNDS) & (c.requests <= Clock::MAX_REQUESTS)
}

fn made_ok(units: u16, c: Clock) -> bool
    requires { (units ≤ 256) × ((1 ≤ c.stage) × (c.stage ≤ 11)) }
    ensures { result ≡ made_ok units c }
{
    if c.stage == Clock::FINISHED {
        c.made == 0
    } else {
        c.made < ceilings::ceiling(units, c.stage)
    }
}
