// What a call hands back: the state, and beside it its reply.
ghost use Rattle.std.specs.Prelude.{◌≡◌};
ghost use Rattle.spec_machine.specs.Calls.{number_of};

use super::whole::Survey;
use spec_state::Reply;

#[derive(Clone, Copy)]
pub struct Answer {
    pub survey: Survey,
    pub reply: Reply,
}

impl Answer {
    // Document 01's number: 0 where the call was not refused.
    pub fn number(self) -> u8
        ensures { result ≡ number_of self.reply }
    {
        let reply = self.reply;
        match reply {
            Reply::Refused(number) => number,
            Reply::Done => 0,
            Reply::Made(_) => 0,
            Reply::Status { .. } => 0,
            Reply::Unit { .. } => 0,
            Reply::Link { .. } => 0,
            Reply::Read { .. } => 0,
            Reply::Written(_) => 0,
        }
    }
}
