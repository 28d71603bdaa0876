// The numbers by which a call is turned down, with the names that the header for C has: up to 14 document 01's, from 15
// on document 02's.

// Not refused.
#![tactic(auto)]

pub const DONE: u8 = 0;

// A line of the file is faulty, or the program's input is too long.
pub const FAULTY_LINE: u8 = 1;

// The lines are not in their order.
pub const OUT_OF_ORDER: u8 = 2;

// The last line gives another number of links.
pub const COUNT_DIFFERS: u8 = 3;

// There are 0 units, or more than 256.
pub const BAD_UNIT_COUNT: u8 = 4;

// The table has an odd number of words.
pub const ODD_WORDS: u8 = 5;

// There are more than 1,024 links.
pub const TOO_MANY_LINKS: u8 = 6;

// An end is no unit.
pub const END_MISSING: u8 = 7;

// A link has equal ends.
pub const EQUAL_ENDS: u8 = 8;

// Two links join the same two units.
pub const REPEATED_LINK: u8 = 9;

// The state is not kept.
pub const NOT_KEPT: u8 = 10;

// The survey is finished.
pub const AT_END: u8 = 11;

// The survey is not finished.
pub const BEFORE_END: u8 = 12;

// The unit or the position does not exist.
pub const NO_SUCH_NAME: u8 = 13;

// The slice that is written to is too short.
pub const TOO_SHORT: u8 = 14;

// The levels, or the marks, are not as many as the links.
pub const LEVELS_DIFFER: u8 = 15;

// A level is out of its range.
pub const LEVEL_OUTSIDE: u8 = 16;

// The planner's parents are not as many as the units.
pub const PLAN_LENGTH: u8 = 17;

// The planner's parents are no tree of the site.
pub const PLAN_NO_TREE: u8 = 18;

// The pairs of a lifting order are too many, odd, or name a missing unit.
pub const BAD_PAIRS: u8 = 19;

// There is no lifting order.
pub const NO_ORDER: u8 = 20;

// No link joins the two units.
pub const NO_SUCH_LINK: u8 = 21;

// Of two or more units one has no link.
pub const UNLINKED_UNIT: u8 = 22;

// The seat is above 7.
pub const NO_SUCH_SEAT: u8 = 23;
