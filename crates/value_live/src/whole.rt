// A live table by value, and what a call of it hands back.

// The ends of link j stand at 2j and 2j + 1, its level at j, the number of links at unit v at v.
#[derive(Clone, Copy)]
pub struct Live {
    pub units: u16,
    pub links: u16,
    pub ends: [u16; 2048],
    pub levels: [i16; 1024],
    pub counts: [u16; 256],
}

// The table, and beside it the number of a refusal: 0 where there was none.
#[derive(Clone, Copy)]
pub struct Answer {
    pub live: Live,
    pub number: u8,
}
