// The first and the last line of a report, each over the front of a lent slice; nothing is written where it does not
// fit.
ghost use Rattle.std.specs.Prelude.{◌≡◌};
ghost use Rattle.file_frames.specs.Frame.{line_over};
ghost use Rattle.file_frames.specs.Bodies.{head_body, tail_body};

use file_frames::{kinds, line};

// 11: all rounds, requests.
pub fn head_line(rounds: u16, requests: u16, out: &mut [u8])
    ensures { out.new ≡ line_over (head_body rounds requests) out.old }
{
    line::two_numbers(kinds::HEAD, rounds, requests, out);
}

// 1F: the numbers of single points and of lone links.
pub fn tail_line(singles: u16, lones: u16, out: &mut [u8])
    ensures { out.new ≡ line_over (tail_body singles lones) out.old }
{
    line::two_numbers(kinds::TAIL, singles, lones, out);
}
