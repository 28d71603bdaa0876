// The lines of the two handsets (T-06), both written from one status record.
#![tactic(auto)]

pub mod foreman;
pub mod service;

ghost use Rattle.std.specs.Prelude.{◌≡◌, length};
ghost use Rattle.table.specs.Refusals.{written};
ghost use Rattle.file_frames.specs.Frame.{line_of};
ghost use Rattle.handset_lines.specs.Lines.{line_needed, line_body, room_refusal};

// What a status tells.
#[derive(Clone, Copy)]
pub struct Status {
    pub stage: u16,
    pub countdown: u16,
    pub rounds: u16,
    pub requests: u16,
}

// The characters of either line.
pub fn length(service: bool) -> u32
    ensures { result ≡ line_needed service }
{
    if service {
        service::LENGTH as u32
    } else {
        foreman::LENGTH as u32
    }
}

// Either line at the front of `out`: 14. Bytes past it stay.
pub fn write(service: bool, status: Status, out: &mut [u8]) -> u8
    ensures number { result ≡ room_refusal (line_needed service) (length out.old) }
    ensures bytes { out.new
        ≡ written (room_refusal (line_needed service) (length out.old)) (line_of (line_body service status))
        out.old }
{
    if service {
        return service::write(status, out);
    }
    foreman::write(status, out)
}
