// The survey of the table that a text gives: a survey file, which begins with 0, or a stream of numbers, which begins
// with the digits of a unit count.
use base_streams::{Cursor, listed};
use file_spec::Reading;
use std::io;
use survey::Survey;

pub(crate) fn of(rt: &impl Print, text: &[u8]) -> io::Result<Survey> {
    if is_file(text) {
        return Ok(filed(text));
    }
    streamed(rt, text)
}

fn is_file(text: &[u8]) -> bool {
    if text.len() < 1 {
        return false;
    }
    text[0] == 48
}

// ---- a survey file: a stored table

fn filed(file: &[u8]) -> Survey {
    let mut words = [0u16; 2048];
    let mut levels = [0i16; 1024];
    let found = file_read::read(file, &mut words, &mut levels);
    match found {
        Reading::Read { units, links } => stored(units, links as usize, &words, &levels),
        Reading::Refused(_) => Survey::new(),
    }
}

fn stored(units: u16, links: usize, words: &[u16], levels: &[i16]) -> Survey {
    if words.len() / 2 < links {
        return Survey::new();
    }
    if levels.len() < links {
        return Survey::new();
    }
    let end = 2 * links;
    let answer = Survey::new().load_stored(units, &words[..end], &levels[..links]);
    answer.survey
}

// ---- a stream: the unit count, the list of words, the list of levels and, where the planner drew a tree (document 02,
// T-05), the list of parents

fn streamed(rt: &impl Print, stream: &[u8]) -> io::Result<Survey> {
    let units = base_streams::next_number(stream, base_streams::begin());
    let mut words = [0u16; 2048];
    let ends = listed::words(stream, units.cursor, &mut words);
    let mut levels = [0i16; 1024];
    let heard = listed::levels(stream, ends.cursor, &mut levels);
    let units = (units.value % 65536) as u16;
    if base_streams::ended(stream, heard.cursor) {
        return Ok(fresh(units, &words, ends.count, &levels, heard.count));
    }
    drawn(
        rt,
        stream,
        heard.cursor,
        units,
        &words,
        ends.count,
        &levels,
        heard.count,
    )
}

// The list of parents, at the end.
fn drawn<'a>(
    rt: &impl Print,
    stream: &'a [u8],
    cursor: Cursor,
    units: u16,
    words: &'a [u16],
    count: usize,
    levels: &'a [i16],
    links: usize,
) -> io::Result<Survey> {
    let mut parents = [0u16; 256];
    let named = listed::words(stream, cursor, &mut parents);
    if !base_streams::ended(stream, named.cursor) {
        base_io::write_all(rt, b"fault\n")?;
    }
    Ok(planned(units, words, count, levels, links, &parents, named.count))
}

fn fresh<'a>(
    units: u16,
    words: &'a [u16],
    count: usize,
    levels: &'a [i16],
    links: usize,
) -> Survey {
    if words.len() < count {
        return Survey::new();
    }
    if levels.len() < links {
        return Survey::new();
    }
    let answer = Survey::new().load(units, &words[..count], &levels[..links]);
    answer.survey
}

fn planned<'a>(
    units: u16,
    words: &'a [u16],
    count: usize,
    levels: &'a [i16],
    links: usize,
    parents: &'a [u16],
    drawn: usize,
) -> Survey {
    if parents.len() < drawn {
        return Survey::new();
    }
    if words.len() < count {
        return Survey::new();
    }
    if levels.len() < links {
        return Survey::new();
    }
    let answer = Survey::new().load_planned(
        units,
        &words[..count],
        &levels[..links],
        &parents[..drawn],
    );
    answer.survey
}
