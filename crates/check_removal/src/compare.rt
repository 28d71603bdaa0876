// A table surveyed twice, by the library and by removal, and what each answers compared.
use super::counts::Counts;
use super::groups::NONE;
use super::{groups, removal};
use std::io;
use survey::{Reply, Survey};

// What the library answers of unit `v`. The state ends here: a function that holds it is long to prove.
fn unit_reply(s: Survey, v: u16) -> Reply {
    let answer = value_calls::unit(s, v);
    answer.reply
}

fn link_reply(s: Survey, j: u16) -> Reply {
    let answer = value_calls::link(s, j);
    answer.reply
}

// A unit, which the second survey calls a single point or not.
fn unit_seen(reply: Reply, second: bool, counts: &mut Counts) {
    match reply {
        Reply::Unit { single, .. } => counts.single(single, single == second),
        _ => counts.single(false, false),
    }
}

// Link `j`, which the second survey calls lone or not and gives a label.
fn link_seen(reply: Reply, j: u16, second: bool, second_label: u16, counts: &mut Counts) {
    match reply {
        Reply::Link { label, lone, .. } => {
            counts.lone(lone, lone == second);
            counts.label(label == j, label == second_label);
        }
        _ => counts.label(false, false),
    }
}

// What the finished survey and the second one say of each unit and each of so many positions.
fn asked(s: Survey, units: u16, positions: u16, links: &[u16], counts: &mut Counts) {
    let mut whole = [0u16; 256];
    let mut labels = [0u16; 1024];
    let joins = groups::without(links, NONE, NONE, &mut whole);
    groups::alone(&mut labels);
    for v in 0..units {
        let single = removal::unit(links, joins, v, &mut labels);
        unit_seen(unit_reply(s, v), single, counts);
    }
    for j in 0..positions {
        let lone = removal::link(links, joins, j);
        let label = base_slices::word(&labels, j as usize);
        link_seen(link_reply(s, j), j, lone, label, counts);
    }
}

// The library's survey of a table, made to its end.
fn surveyed(units: u16, words: &[u16]) -> Survey {
    match [0i16; 1024].get(..words.len() / 2) {
        Some(levels) => ended(Survey::new().load_stored(units, words, levels).survey),
        None => Survey::new(),
    }
}

fn ended(s: Survey) -> Survey {
    let ran = s.run(65535);
    ran.survey
}

// Prints the words of a table: those of its file, two for each link.
fn shown(rt: &impl Print, units: u16, words: &[u16]) -> io::Result<()> {
    print!(rt; "surveys differ, units and ends of links: {units}")?;
    for word in words {
        print!(rt; " {word}")?;
    }
    println!(rt; "")
}

// A table of so many units and positions, each link one word. Where the two surveys differ it is printed.
pub(crate) fn table(
    rt: &impl Print,
    units: u16,
    positions: u16,
    links: &[u16],
    counts: &mut Counts,
) -> io::Result<()> {
    // As the library takes it: two words for each link.
    let mut room = [0u16; 2048];
    for (ends, link) in room.chunks_exact_mut(2).zip(links) {
        ends.copy_from_slice(&[link / 256, link % 256]);
    }
    let before = counts.differences;
    if let Some(words) = room.get(..positions.wrapping_add(positions) as usize) {
        asked(surveyed(units, words), units, positions, links, counts);
        counts.tables = counts.tables.wrapping_add(1);
        counts.units = counts.units.wrapping_add(units as u64);
        counts.links = counts.links.wrapping_add(positions as u64);
        if counts.differences != before {
            shown(rt, units, words)?;
        }
    }
    Ok(())
}
