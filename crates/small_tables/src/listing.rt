// T-13: the listing of all small sites. Unit counts ascend, and the sites of each follow their number from 0.
ghost use Rattle.std.specs.Prelude.{◌≡◌};
ghost use Rattle.small_tables.specs.Listing.{site_at};

// How many there are.
pub const SITES: u16 = 1099;

// A unit count, and a number among the tables of so many units.
#[derive(Clone, Copy)]
pub struct Site {
    pub units: u16,
    pub number: u16,
}

// The site at place `i`, counted from 0; of no unit where there is none.
pub fn site_at(i: u16) -> Site
    ensures { (result.units, result.number) ≡ site_at i }
{
    match i {
        0 => Site {
            units: 1,
            number: i,
        },
        1..=2 => Site {
            units: 2,
            number: i - 1,
        },
        3..=10 => Site {
            units: 3,
            number: i - 3,
        },
        11..=74 => Site {
            units: 4,
            number: i - 11,
        },
        75..SITES => Site {
            units: 5,
            number: i - 75,
        },
        _ => Site {
            units: 0,
            number: 0,
        },
    }
}
