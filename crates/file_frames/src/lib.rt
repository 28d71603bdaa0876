// One line of hexadecimal digits: its kinds, its digits, its check byte, and the line written over the front of a lent
// slice.

#![tactic(auto)]

pub mod check;
pub mod digits;
pub mod kinds;
pub mod line;
