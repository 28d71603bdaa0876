// What a call answers, or only the number of a refusal.
#[derive(Clone, Copy)]
pub enum Reply {
    // Only the number comes back.
    Refused(u8),
    // A load or a round was made.
    Done,
    // A run: the number of rounds that it made.
    Made(u16),
    Status {
        stage: u16,
        countdown: u16,
        rounds: u16,
        requests: u16,
    },
    // The fields of a report's unit line.
    Unit {
        unit: u16,
        color: u16,
        parent: u16,
        place: u16,
        single: bool,
    },
    // The fields of a report's link line.
    Link {
        position: u16,
        label: u16,
        lone: bool,
    },
    // Reading a file found these.
    Read {
        units: u16,
        links: u16,
    },
    // A report or a file was written: the number of its characters.
    Written(u32),
}
