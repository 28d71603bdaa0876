// Where each number and table of a live table lies in its words: each begins where the one before it ends
// (specs/LiveLayout.antt has the same sizes).
pub(crate) const UNITS: usize = 0;

pub(crate) const LINKS: usize = 1;

pub(crate) const ENDS: usize = 2;

pub(crate) const LEVELS: usize = ENDS + 2048;

pub(crate) const COUNTS: usize = LEVELS + 1024;

// The words of a live table.
pub const LIVE_WORDS: usize = COUNTS + 256;
