// What reading judges by numbers alone: the order of the frames, a level's byte, and 6, 16 and 14; and where a line
// ends.
ghost use Rattle.std.specs.Prelude.{◌≡◌, ◌+◌, ◌*◌, not};
ghost use Rattle.table_levels.specs.Level.{in_range, byte_level};
ghost use Rattle.file_frames.specs.Kinds.{frame_bytes};
ghost use Rattle.file_spec.specs.File.{later_refusal};
ghost use Rattle.file_read.specs.FrameOrder.{next_order};

use file_frames::kinds;

// How far the order of the frames has come: at the start, past the unit count, past the number of links, or broken.
pub const START: u8 = 0;

pub const LINKS: u8 = 1;

pub const ENDED: u8 = 2;

pub const BROKEN: u8 = 3;

// The order past one frame more.
pub fn next_order(order: u8, kind: u8) -> u8
    ensures { result ≡ next_order order kind }
{
    if order == START {
        return if kind == kinds::UNITS { LINKS } else { BROKEN };
    }
    if order != LINKS {
        return BROKEN;
    }
    if kinds::is_link(kind) {
        return LINKS;
    }
    if kind == kinds::END { ENDED } else { BROKEN }
}

// The characters of a line of this kind.
pub fn line_length(kind: u8) -> usize
    ensures { result ≡ 2 * frame_bytes kind + 1 }
{
    2 * (kinds::frame_bytes(kind) as usize) + 1
}

// Whether the byte of a level stands for none that a table may have.
pub fn bad_level(b: u8) -> bool
    ensures { result ≡ not (in_range (byte_level b)) }
{
    if b == 0 { false } else { b <= 128 }
}

// Of a file in order: 6, 16, 14.
pub fn later_refusal(links: usize, outside: bool, places: usize, spaces: usize) -> u8
    ensures { result ≡ later_refusal links outside places spaces }
{
    if table::MAX_LINKS < links {
        return table_refusals::TOO_MANY_LINKS;
    }
    if outside {
        return table_refusals::LEVEL_OUTSIDE;
    }
    if places < 2 * links {
        return table_refusals::TOO_SHORT;
    }
    if spaces < links {
        table_refusals::TOO_SHORT
    } else {
        table_refusals::DONE
    }
}
