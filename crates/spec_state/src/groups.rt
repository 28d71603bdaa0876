// The state of a survey: what document 01 says a state holds, in groups that follow the stages. Arrays have their full
// length whatever the unit count is. Units index by their number, arcs by 2v (into v) and 2v + 1 (out of v), links by
// position, segments by place.

// The table of links: the two ends of link j stand at 2j and 2j + 1, its level at j.
#[derive(Clone, Copy)]
pub struct Table {
    pub units: u16,
    pub links: u16,
    pub ends: [u16; 2048],
    pub levels: [i16; 1024],
}

// The stage, 1 to 10 or 11 at the end; the rounds of this stage; all rounds; all requests of the rankings.
#[derive(Clone, Copy)]
pub struct Clock {
    pub stage: u16,
    pub made: u16,
    pub rounds: u16,
    pub requests: u16,
}

impl Clock {
    // The stage of a finished survey.
    pub const FINISHED: u16 = 11;

    // The limits of all rounds and of all requests.
    pub const MAX_ROUNDS: u16 = 804;

    pub const MAX_REQUESTS: u16 = 8158;
}

// Stage 1: colour.
#[derive(Clone, Copy)]
pub struct Components {
    pub color: [u16; 256],
}

// Stage 2: parent and distance.
#[derive(Clone, Copy)]
pub struct Tree {
    pub parent: [u16; 256],
    pub dist: [u16; 256],
}

// A tree drawn by the planner (document 02, T-05): its parents, and whether it was given, any number but 0.
#[derive(Clone, Copy)]
pub struct Plan {
    pub given: u16,
    pub parent: [u16; 256],
}

// Stage 3: follower and predecessor of each arc.
#[derive(Clone, Copy)]
pub struct Tour {
    pub next: [u16; 512],
    pub pred: [u16; 512],
}

// Stages 4 and 6: working predecessor and sum of each arc.
#[derive(Clone, Copy)]
pub struct Ranking {
    pub jump: [u16; 512],
    pub sum: [u16; 512],
}

// Stages 5 and 6: forward marks of arcs, descendants and place of units.
#[derive(Clone, Copy)]
pub struct Order {
    pub forward: [u16; 512],
    pub nd: [u16; 256],
    pub pre: [u16; 256],
}

// Stage 7: least and greatest of each unit, with little and big.
#[derive(Clone, Copy)]
pub struct Range {
    pub low: [u16; 256],
    pub high: [u16; 256],
    pub little: [u16; 256],
    pub big: [u16; 256],
}

// Stage 7: the segments, least and greatest.
#[derive(Clone, Copy)]
pub struct Global {
    pub low: [u16; 256],
    pub high: [u16; 256],
}

// Stages 8 and 9: the joins of units with their parents and of links, and the class of each tree link.
#[derive(Clone, Copy)]
pub struct Aux {
    pub parents: [u16; 256],
    pub links: [u16; 1024],
    pub color: [u16; 256],
}

// Stage 10: the class and the label of each link.
#[derive(Clone, Copy)]
pub struct Labels {
    pub class: [u16; 1024],
    pub label: [u16; 1024],
}
