// The kinds of frames, and the lengths of those of a file.
ghost use Rattle.std.specs.Prelude.{◌≡◌};
ghost use Rattle.file_frames.specs.Kinds.{frame_bytes, link_kind};

// File: the unit count, the two ends of a link, the two ends and the level of one, the number of links.
pub const UNITS: u8 = 0x01;

pub const BARE_LINK: u8 = 0x02;

pub const LINK: u8 = 0x03;

pub const END: u8 = 0x0F;

// Report: all rounds and requests, a unit, a link's label, the numbers of single points and lone links.
pub const HEAD: u8 = 0x11;

pub const UNIT: u8 = 0x12;

pub const LABEL: u8 = 0x13;

pub const TAIL: u8 = 0x1F;

// The number of a refusal.
pub const REFUSAL: u8 = 0x1E;

// The bytes of a frame of a file kind; 0: no kind of a file.
pub fn frame_bytes(kind: u8) -> u8
    ensures { result ≡ frame_bytes kind }
{
    match kind {
        UNITS | END => 4,
        BARE_LINK => 6,
        LINK => 7,
        _ => 0,
    }
}

// A line of a link, with or without a level.
pub fn is_link(kind: u8) -> bool
    ensures { result ≡ link_kind kind }
{
    matches!(kind, BARE_LINK | LINK)
}
