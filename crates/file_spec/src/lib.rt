// Survey files: what is read of them and written to them. Specs, and the replies of the two calls; no functions.
// What reading a file replies: the unit count and the number of links, or the number of a refusal.
#![tactic(auto)]

#[derive(Clone, Copy)]
pub enum Reading {
    Read { units: u16, links: u16 },
    Refused(u8),
}

// What writing a file replies: the number of its characters, or the number of a refusal.
#[derive(Clone, Copy)]
pub enum Writing {
    Written(u32),
    Refused(u8),
}
