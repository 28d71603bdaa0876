// The foreman's line, kind 20: stage as one byte, countdown.
ghost use Rattle.std.specs.Prelude.{◌≡◌, length};
ghost use Rattle.table.specs.Refusals.{written};
ghost use Rattle.file_frames.specs.Frame.{line_of};
ghost use Rattle.handset_lines.specs.Lines.{FOREMAN-LINE, foreman_body, room_refusal};

use super::Status;
use file_frames::{digits, line};

// Its kind, and its characters.
pub const KIND: u8 = 0x20;

pub const LENGTH: usize = 11;

// The line at the front of `out`: 14. Bytes past it stay.
pub fn write(status: Status, out: &mut [u8]) -> u8
    ensures number { result ≡ room_refusal FOREMAN-LINE (length out.old) }
    ensures bytes { out.new
        ≡ written (room_refusal FOREMAN-LINE (length out.old)) (line_of (foreman_body status))
        out.old }
{
    if out.len() < LENGTH {
        return table_refusals::TOO_SHORT;
    }
    let body = [
        KIND,
        digits::low_byte(status.stage),
        digits::high_byte(status.countdown),
        digits::low_byte(status.countdown),
    ];
    line::write(&body, out);
    0
}
