// Reading a file with a cursor that goes from line to line: why it is refused, and its ends and levels laid down.
ghost use Rattle.std.specs.Prelude.{◌≡◌, ◌+◌, ◌*◌, ◌<◌, ◌≤◌, false, not, ◌++◌, length, drop, if◌then◌else◌, nat_eq};
ghost use Rattle.table_levels.specs.Level.{LOWEST, in_range, byte_level};
ghost use Rattle.file_frames.specs.Frame.{byte_at};
ghost use Rattle.file_frames.specs.Kinds.{LINK, frame_bytes};
ghost use Rattle.file_spec.specs.File.{lines_of, faulty_line, link_frames, ends_in, levels_in, read_refusal};
ghost use Rattle.file_read.specs.Marks.{Marks};

use super::{lines, marks};
use file_frames::kinds;

// Whether the level in the line of kind 03 at `at` is out of range.
fn bad_level_at(t: &[u8], file: &[u8], at: usize) -> bool
    requires { Marks t.now × (at + 11 < length file.now) }
    ensures { result ≡ not (in_range (byte_level (byte_at file.now (at + 10)))) }
{
    crate::judge::bad_level(marks::byte_at(t, file, at + 10))
}

// The number of the first cause among 1, 2, 3, 6, 16, 14; 0 where there is none. The walk goes on past a broken order:
// a faulty line comes first.
pub(crate) fn refusal(t: &[u8], file: &[u8], places: usize, spaces: usize) -> u8
    requires { Marks t.now }
    ensures { result ≡ read_refusal (lines_of file.now) places spaces }
{
    let mut at = 0;
    let mut order = crate::judge::START;
    let mut links = 0;
    let mut last = 0;
    let mut outside = false;
    while at < file.len() {
        let kind = lines::kind(t, &file[at..]);
        if kind == 0 {
            return table_refusals::FAULTY_LINE;
        }
        last = at;
        if kind == kinds::LINK {
            outside = base_choice::either(outside, bad_level_at(t, file, at));
            order = crate::judge::next_order(order, kinds::LINK);
            links += 1;
            at += crate::judge::line_length(kinds::LINK);
            continue;
        }
        if kind == kinds::BARE_LINK {
            order = crate::judge::next_order(order, kinds::BARE_LINK);
            links += 1;
            at += crate::judge::line_length(kinds::BARE_LINK);
            continue;
        }
        order = crate::judge::next_order(order, kind);
        at += crate::judge::line_length(kind);
    }
    if order != crate::judge::ENDED {
        return table_refusals::OUT_OF_ORDER;
    }
    if marks::word_at(t, file, last + 2) as usize != links {
        return table_refusals::COUNT_DIFFERS;
    }
    crate::judge::later_refusal(links, outside, places, spaces)
}

// The level in the line of a link at `at`, of this kind.
fn level_at(t: &[u8], file: &[u8], at: usize, kind: u8) -> i16
    requires { Marks t.now × (at + (2 * frame_bytes kind + 1) ≤ length file.now) }
    ensures { result ≡ (if nat_eq kind LINK then byte_level (byte_at file.now (at + 10)) else LOWEST) }
{
    if kind == kinds::LINK {
        table_levels::of_byte(marks::byte_at(t, file, at + 10))
    } else {
        table_levels::LOWEST
    }
}

// The ends and the levels in the lines of links, laid down in order; their number of links. For a file without a faulty
// line, whose links fit.
pub(crate) fn fill(t: &[u8], file: &[u8], words: &mut [u16], levels: &mut [i16]) -> usize
    requires { Marks t.now × (faulty_line (lines_of file.now) ≡ false)
        × (2 * link_frames (lines_of file.now) ≤ length words.old)
        × (link_frames (lines_of file.now) ≤ length levels.old) }
    ensures links { result ≡ link_frames (lines_of file.now) }
    ensures ends { words.new
        ≡ ends_in (lines_of file.now)
        ++ drop (length (ends_in (lines_of file.now))) words.old }
    ensures levels { levels.new
        ≡ levels_in (lines_of file.now)
        ++ drop (length (levels_in (lines_of file.now))) levels.old }
{
    let mut at = 0;
    let mut n = 0;
    while at < file.len() {
        let kind = marks::byte_at(t, file, at);
        if kinds::is_link(kind) {
            words[2 * n] = marks::word_at(t, file, at + 2);
            words[2 * n + 1] = marks::word_at(t, file, at + 6);
            let level = level_at(t, file, at, kind);
            levels[n] = level;
            n += 1;
            at += crate::judge::line_length(kind);
            continue;
        }
        at += crate::judge::line_length(kind);
    }
    n
}
