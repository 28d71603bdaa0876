// A caller of ten lines, as docs/MANUAL.md shows it: case B of document 01 is loaded, run to its end and reported.
#![tactic(auto)]

use std::io;
use survey_calls::Survey;

fn main(rt: HostRuntime) -> io::Result<()> {
    let table = [0, 1, 1, 2, 0, 2, 2, 3];
    let levels = [-127; 4];
    let loaded = Survey::new().load(4, &table, &levels);
    let ended = loaded.survey.run(65535);
    let mut out = [0u8; 178];
    survey_calls::state_report(ended.survey, &mut out);
    base_io::write_all(&rt, &out)
}
