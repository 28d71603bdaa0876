// The line that the characters of a file begin with.
ghost use Rattle.std.specs.Prelude.{◌≡◌};
ghost use Rattle.file_frames.specs.Kinds.{line_kind};
ghost use Rattle.file_read.specs.Marks.{Marks};

use super::marks;
use file_frames::{kinds, line};

// Its kind; 0 where there is none: by the line feed where the kind's length puts it, and one pass over the digits.
pub(crate) fn kind(t: &[u8], s: &[u8]) -> u8
    requires { Marks t.now }
    ensures { result ≡ line_kind s.now }
{
    if s.len() < 2 {
        return 0;
    }
    let kind = marks::byte(t, s[0], s[1]);
    let bytes = kinds::frame_bytes(kind);
    if bytes == 0 {
        return 0;
    }
    let end = 2 * (bytes as usize);
    if s.len() <= end {
        return 0;
    }
    if s[end] != line::LF {
        return 0;
    }
    if marks::sums_to_0(t, &s[..end]) {
        kind
    } else {
        0
    }
}
