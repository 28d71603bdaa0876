// The checks 4 to 9, 15, 16 and 22 on a lent table of links and its levels.
#![tactic(auto)]

ghost use Rattle.std.specs.Prelude.{◌≡◌, false, ◌≤◌};
ghost use Rattle.table.specs.Table.{max_units, end_missing, equal_ends, count_refusal, level_refusal};
ghost use Rattle.table.specs.Table.{end_refusal, bare_refusal, stored_refusal, refusal_as, repeated_as, pair_refusal};
ghost use Rattle.table.specs.Table.{unlevelled_as, unlinked_unit};

mod marks;
mod seen;

// The limits of a site.
pub const MAX_UNITS: u16 = 256;

pub const MAX_LINKS: usize = 1024;

// The mark "absent".
pub const ABSENT: u16 = 65535;

// The number of the first check that fails, 0 where the table passes with its levels: of a stored table 4 to 6, 15, 16,
// 7 to 9, of a fresh one last 22.
pub fn refusal(fresh: bool, units: u16, table: &[u16], levels: &[i16]) -> u8
    ensures { result ≡ refusal_as fresh units table.now levels.now }
{
    let number = stored_refusal(units, table, levels);
    if number != 0 {
        return number;
    }
    if !fresh {
        return table_refusals::DONE;
    }
    if unlinked(units, table) {
        table_refusals::UNLINKED_UNIT
    } else {
        table_refusals::DONE
    }
}

// The same of a stored table.
fn stored_refusal(units: u16, table: &[u16], levels: &[i16]) -> u8
    ensures { result ≡ stored_refusal units table.now levels.now }
{
    let number = counts(units, table);
    if number != 0 {
        return number;
    }
    let later = levelled(table, levels);
    if later != 0 {
        return later;
    }
    ends(false, units, table)
}

// The same of a table of ordered pairs, from and to: 9 is one pair twice.
pub fn pair_refusal(units: u16, table: &[u16]) -> u8
    ensures { result ≡ pair_refusal units table.now }
{
    unlevelled(true, units, table)
}

// The same of a table without levels: 4 to 9.
pub fn bare_refusal(units: u16, table: &[u16]) -> u8
    ensures { result ≡ bare_refusal units table.now }
{
    unlevelled(false, units, table)
}

// Either, as the pairs are ordered or not.
fn unlevelled(ordered: bool, units: u16, table: &[u16]) -> u8
    ensures { result ≡ unlevelled_as ordered units table.now }
{
    let number = counts(units, table);
    if number != 0 {
        return number;
    }
    ends(ordered, units, table)
}

// 4, 5, 6.
fn counts(units: u16, table: &[u16]) -> u8
    ensures { result ≡ count_refusal units table.now }
{
    if units == 0 {
        return table_refusals::BAD_UNIT_COUNT;
    }
    if MAX_UNITS < units {
        return table_refusals::BAD_UNIT_COUNT;
    }
    if table.len() % 2 == 1 {
        return table_refusals::ODD_WORDS;
    }
    if MAX_LINKS < table.len() / 2 {
        return table_refusals::TOO_MANY_LINKS;
    }
    0
}

// 15, 16.
fn levelled(table: &[u16], levels: &[i16]) -> u8
    ensures { result ≡ level_refusal table.now levels.now }
{
    if levels.len() != table.len() / 2 {
        return table_refusals::LEVELS_DIFFER;
    }
    if table_levels::all_in_range(levels) {
        0
    } else {
        16
    }
}

// 7, 8, 9, of at most 256 units.
fn ends(ordered: bool, units: u16, table: &[u16]) -> u8
    requires { units ≤ max_units }
    ensures { result ≡ end_refusal units table.now (repeated_as ordered table.now) }
{
    if end_missing(units, table) {
        return table_refusals::END_MISSING;
    }
    if equal_ends(table) {
        return table_refusals::EQUAL_ENDS;
    }
    if repeated(ordered, table) {
        return table_refusals::REPEATED_LINK;
    }
    0
}

// Whether an end is `units` or more. Every end is looked at: a loop without a way out is taken several words at a time.
fn end_missing(units: u16, table: &[u16]) -> bool
    ensures { result ≡ end_missing units table.now }
{
    let mut missing = false;
    for end in table {
        missing |= units <= *end;
    }
    missing
}

// Whether a link has equal ends.
fn equal_ends(table: &[u16]) -> bool
    ensures { result ≡ equal_ends table.now }
{
    let mut equal = false;
    for j in 0..table.len() / 2 {
        equal |= table[2 * j] == table[2 * j + 1];
    }
    equal
}

// Whether two links join the same two units, or are the same ordered pair, for ends below 256.
fn repeated(ordered: bool, table: &[u16]) -> bool
    ensures { end_missing 256 table.now ≡ false → result ≡ repeated_as ordered table.now }
{
    let mut blank = [0u8; 8192];
    marks::found(ordered, table, &mut blank)
}

// Whether some of two or more units, at most 256, is the end of no link.
fn unlinked(units: u16, table: &[u16]) -> bool
    requires { units ≤ max_units }
    ensures { result ≡ unlinked_unit units table.now }
{
    if units < 2 {
        return false;
    }
    let mut marks = [0u8; 256];
    seen::mark_ends(table, &mut marks);
    seen::some_blank(units, &marks)
}
