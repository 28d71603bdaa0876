// The checks of a change: of the given table, of the link to be added, of the two units whose link is to be withdrawn.
ghost use Rattle.std.specs.Prelude.{◌≡◌, not, ◌||◌, [], ◌∷◌, ◌*◌, ◌≤◌, eqb, leb, length, take};
ghost use Rattle.table_levels.specs.Level.{in_range};
ghost use Rattle.table.specs.Refusals.{first_of};
ghost use Rattle.live_table.specs.Live.{place_of};
ghost use Rattle.live_table.specs.LiveCalls.{given_refusal};
ghost use Rattle.live_table.specs.GivenLaws.{held_refusal};

// Of the given table: 4, 6, 16, 7, 8, 9, 10.
pub(crate) fn refusal<'a>(
    units: u16,
    links: u16,
    ends: &'a [u16],
    levels: &'a [i16],
    counts: &'a [u16],
) -> u8
    requires { (length ends.now ≡ 2048) × (length levels.now ≡ 1024) }
    ensures { result ≡ given_refusal (record {
      units = units;
      links = links;
      ends = ends.now;
      levels = levels.now;
      counts = counts.now;
    }) }
{
    if units == 0 {
        return table_refusals::BAD_UNIT_COUNT;
    }
    if table::MAX_UNITS < units {
        return table_refusals::BAD_UNIT_COUNT;
    }
    if 1024 < links {
        return table_refusals::TOO_MANY_LINKS;
    }
    let m = links as usize;
    held_refusal(units, links, &ends[..2 * m], &levels[..m], counts)
}

// Load's checks of what it holds, and then 10.
fn held_refusal<'a>(
    units: u16,
    links: u16,
    words: &'a [u16],
    levels: &'a [i16],
    counts: &'a [u16],
) -> u8
    ensures { result ≡ held_refusal units links words.now levels.now counts.now }
{
    let refused = table::refusal(false, units, words, levels);
    if refused != 0 {
        return refused;
    }
    if live_table::miscounted(links, words, counts) {
        return table_refusals::NOT_KEPT;
    }
    0
}

// The position among the links of one that joins `a` and `b`; the number of links where none does.
pub(crate) fn place_in(links: u16, ends: &[u16], a: u16, b: u16) -> usize
    requires { 2 * links ≤ length ends.now }
    ensures { result ≡ place_of a b (take (2 * links) ends.now) }
{
    let m = links as usize;
    live_table::place_of(&ends[..2 * m], a, b)
}

// Of a link to be added, by whether one joins its units already: 6, 16, 7, 8, 9.
pub(crate) fn link_refusal(units: u16, links: u16, a: u16, b: u16, level: i16, joined: bool) -> u8
    ensures { result ≡ first_of ((6, leb 1024 links) ∷ (16, not (in_range level)) ∷ (7, leb units a || leb units b)
        ∷ (8, eqb a b) ∷ (9, joined) ∷ []) }
{
    if 1024 <= links {
        return table_refusals::TOO_MANY_LINKS;
    }
    if !table_levels::in_range(level) {
        return table_refusals::LEVEL_OUTSIDE;
    }
    if units <= a {
        return table_refusals::END_MISSING;
    }
    if units <= b {
        return table_refusals::END_MISSING;
    }
    if a == b {
        return table_refusals::EQUAL_ENDS;
    }
    if joined {
        table_refusals::REPEATED_LINK
    } else {
        table_refusals::DONE
    }
}

// Of two units whose link is to be withdrawn, by whether they have one: 7, 8, 21.
pub(crate) fn pair_refusal(units: u16, a: u16, b: u16, joined: bool) -> u8
    ensures { result ≡ first_of ((7, leb units a || leb units b) ∷ (8, eqb a b) ∷ (21, not joined) ∷ []) }
{
    if units <= a {
        return table_refusals::END_MISSING;
    }
    if units <= b {
        return table_refusals::END_MISSING;
    }
    if a == b {
        return table_refusals::EQUAL_ENDS;
    }
    if joined {
        table_refusals::DONE
    } else {
        table_refusals::NO_SUCH_LINK
    }
}
