// Where each number and table of a state lies in its words: each begins where the one before it ends (specs/Layout.antt
// has the same sizes).
pub(crate) const UNITS: usize = 0;

pub(crate) const LINKS: usize = 1;

pub(crate) const ENDS: usize = 2;

pub(crate) const CLOCK: usize = ENDS + 2048;

pub(crate) const COLOR: usize = CLOCK + 4;

pub(crate) const PARENT: usize = COLOR + 256;

pub(crate) const DIST: usize = PARENT + 256;

pub(crate) const NEXT: usize = DIST + 256;

pub(crate) const PRED: usize = NEXT + 512;

pub(crate) const JUMP: usize = PRED + 512;

pub(crate) const SUM: usize = JUMP + 512;

pub(crate) const FORWARD: usize = SUM + 512;

pub(crate) const ND: usize = FORWARD + 512;

pub(crate) const PRE: usize = ND + 256;

pub(crate) const LOW: usize = PRE + 256;

pub(crate) const HIGH: usize = LOW + 256;

pub(crate) const LITTLE: usize = HIGH + 256;

pub(crate) const BIG: usize = LITTLE + 256;

pub(crate) const LEAST: usize = BIG + 256;

pub(crate) const GREATEST: usize = LEAST + 256;

pub(crate) const PARENTS: usize = GREATEST + 256;

pub(crate) const JOINED: usize = PARENTS + 256;

pub(crate) const CLASSES: usize = JOINED + 1024;

pub(crate) const CLASS: usize = CLASSES + 256;

pub(crate) const LABEL: usize = CLASS + 1024;

pub(crate) const LEVELS: usize = LABEL + 1024;

pub(crate) const PLAN: usize = LEVELS + 1024;

pub(crate) const GIVEN: usize = PLAN + 256;

// The words of a state.
pub const STATE_WORDS: usize = GIVEN + 1;

// Tables of one kind that stand in a row: units, list places, classes, and numbers.
pub(crate) const TREES: usize = DIST - COLOR;

pub(crate) const ARCS: usize = SUM - NEXT;

pub(crate) const NUMBERS: usize = CLASSES - SUM;

pub(crate) const NAMED: usize = LABEL - CLASSES;
