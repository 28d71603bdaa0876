// T-13: every set of links among one to five units, opened as a stored table and surveyed by the library; a line for
// each with its single points.
#![tactic(auto)]

ghost use Rattle.std.specs.Prelude.{◌≡◌, ◌∷◌, [], ◌&&◌, ◌++◌, ◌≤◌, ◌<◌, length, take, drop};
ghost use Rattle.table.specs.Table.{link_count};
ghost use Rattle.file_frames.specs.Frame.{line_over};
ghost use Rattle.spec_machine.specs.Load.{unloaded, stored_load_refusal};
ghost use Rattle.spec_machine.specs.Calls.{stored_load_answer, run_answer, unit_answer};
ghost use Rattle.survey.specs.View.{of};
ghost use Rattle.report_program.specs.Printed.{surveyed};
ghost use Rattle.small_tables.specs.Listing.{site_at};
ghost use Rattle.small_sites.specs.Sites.{opened, singles_in, body_of, printed, PRINTED, told_single};

use small_tables::listing;
use small_tables::listing::SITES;
use std::io;
use survey::{Reply, Survey};

// The characters of a line, and of all.
const LINE: usize = 15;

// A table opened as a stored one, with levels of 0.
fn begun(units: u16, words: &[u16]) -> Survey
    requires { link_count words.now ≤ 1024 }
    ensures { of result ≡ (stored_load_answer (opened units words.now) unloaded).state }
{
    let levels = [0i16; 1024];
    let links = words.len() / 2;
    let loaded = Survey::new().load_stored(units, words, &levels[..links]);
    loaded.survey
}

// Its survey, made to the end.
fn ended(s: Survey) -> Survey
    ensures { of result ≡ (run_answer 65535 (of s)).state }
{
    let ran = s.run(65535);
    ran.survey
}

// Whether an answer calls its unit a single point.
fn told(reply: Reply) -> bool
    ensures { result ≡ told_single reply }
{
    match reply {
        Reply::Refused(_) => false,
        Reply::Done => false,
        Reply::Made(_) => false,
        Reply::Status { .. } => false,
        Reply::Unit {
            unit,
            color,
            parent,
            place,
            single,
        } => single,
        Reply::Link { .. } => false,
        Reply::Read { .. } => false,
        Reply::Written(_) => false,
    }
}

// Whether the library calls unit `v` a single point; the question about one that the site lacks is refused.
fn single(s: Survey, v: u16) -> bool
    ensures { result ≡ told_single (unit_answer v (of s)).reply }
{
    let answer = value_calls::unit(s, v);
    let reply = answer.reply;
    told(reply)
}

fn singles(s: Survey) -> [bool; 5]
    ensures { result ≡ told_single (unit_answer 0 (of s)).reply ∷ told_single (unit_answer 1 (of s)).reply
        ∷ told_single (unit_answer 2 (of s)).reply ∷ told_single (unit_answer 3 (of s)).reply
        ∷ told_single (unit_answer 4 (of s)).reply ∷ [] }
{
    [
        single(s, 0),
        single(s, 1),
        single(s, 2),
        single(s, 3),
        single(s, 4),
    ]
}

// The single points of a table that passes.
fn surveyed(units: u16, words: &[u16]) -> [bool; 5]
    requires { stored_load_refusal (opened units words.now) ≡ 0 }
    ensures { result ≡ singles_in units (surveyed (opened units words.now)) }
{
    singles(ended(begun(units, words)))
}

// The line of the site at place `i`, at the front of `out`.
fn line_at(i: u16, out: &mut [u8])
    requires { i < 1099 }
    ensures { out.new ≡ line_over (body_of (site_at i)) out.old }
{
    let site = listing::site_at(i);
    let units = site.units;
    let number = site.number;
    let table = small_tables::table(units, number);
    let words = table.words;
    let end = table.count as usize;
    let mask = small_tables::mask(surveyed(units, &words[..end]));
    small_tables::line(units, number, mask, out);
}

// The lines of all sites, in the order of the listing.
fn lines(out: &mut [u8])
    requires { PRINTED ≤ length out.old }
    ensures { out.new ≡ printed ++ drop PRINTED out.old }
{
    for i in 0..SITES {
        let at = LINE * (i as usize);
        line_at(i, &mut out[at..]);
    }
}

fn main(rt: HostRuntime) -> io::Result<()> {
    let mut out = [0u8; 16485];
    lines(&mut out);
    base_io::write_all(&rt, &out)
}
