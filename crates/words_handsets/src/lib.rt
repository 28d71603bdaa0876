// The foreman's line and the service line (T-06) on a state in words that the caller lends. A number that comes back is
// that of the refusal, 0 where the call was not refused; on a refusal nothing lent is altered.
#![tactic(auto)]

ghost use Rattle.std.specs.Prelude.{◌≡◌, length};
ghost use Rattle.spec_machine.specs.Calls.{number_of};
ghost use Rattle.words_layout.specs.Layout.{state_of};
ghost use Rattle.handset_lines.specs.Lines.{line_needed, line_in, line_answer, line_shown, foreman_answer};
ghost use Rattle.handset_lines.specs.Lines.{foreman_shown};
ghost use Rattle.handset_lines.specs.Lines.{service_answer, service_shown};
ghost use Rattle.words_handsets.specs.Reply.{record_of};

use handset_lines::Status;
use words_layout::STATE_WORDS;

// The status record of a status call's reply.
fn record_of(told: [u16; 4]) -> Status
    ensures { result ≡ record_of told }
{
    Status {
        stage: told[0],
        countdown: told[1],
        rounds: told[2],
        requests: told[3],
    }
}

// Either line at the front of `out`: 10, 14.
fn shown(service: bool, state: &[u16; STATE_WORDS], out: &mut [u8]) -> u32
    ensures number { result ≡ number_of
        (line_answer (line_needed service) (length out.old) (state_of state.now)).reply }
    ensures bytes { out.new
        ≡ line_shown (line_needed service) (line_in service (state_of state.now)) (state_of state.now)
        out.old }
{
    let mut told = [0; 4];
    let refused = words_calls::status(state, &mut told);
    if refused != 0 {
        return refused;
    }
    handset_lines::write(service, record_of(told), out) as u32
}

// The foreman's line at the front of `out`: 10, 14.
pub fn foreman_line(state: &[u16; STATE_WORDS], out: &mut [u8]) -> u32
    ensures number { result ≡ number_of
        (foreman_answer (length out.old) (state_of state.now)).reply }
    ensures bytes { out.new ≡ foreman_shown (state_of state.now) out.old }
{
    shown(false, state, out)
}

// The service line, in the same way.
pub fn service_line(state: &[u16; STATE_WORDS], out: &mut [u8]) -> u32
    ensures number { result ≡ number_of
        (service_answer (length out.old) (state_of state.now)).reply }
    ensures bytes { out.new ≡ service_shown (state_of state.now) out.old }
{
    shown(true, state, out)
}
