// Surveys the table of each file named as an argument, round by round, and prints its name, then every table after the
// load and after each round. It prints `fault` for a malformed stream.
#![tactic(auto)]

use std::io;
use std::rt::{Env, Files};
use survey::{Aux, Components, Global, Labels, Order, Range, Reply, Survey, Tree};

mod loads;
mod say;

// The tables by unit, by place and by link, a group or two at a time: a function that holds the whole state is long to
// prove.
fn trees(rt: &impl Print, units: u16, components: Components, tree: Tree) -> io::Result<()> {
    say::row(rt, b"color", units, &components.color)?;
    say::row(rt, b"parent", units, &tree.parent)?;
    say::row(rt, b"dist", units, &tree.dist)
}

fn ordered(rt: &impl Print, units: u16, order: Order) -> io::Result<()> {
    say::row(rt, b"descendants", units, &order.nd)?;
    say::row(rt, b"place", units, &order.pre)
}

fn ranged(rt: &impl Print, units: u16, range: Range, global: Global) -> io::Result<()> {
    say::row(rt, b"least", units, &range.low)?;
    say::row(rt, b"greatest", units, &range.high)?;
    say::row(rt, b"little", units, &range.little)?;
    say::row(rt, b"big", units, &range.big)?;
    say::row(rt, b"segments-least", units, &global.low)?;
    say::row(rt, b"segments-greatest", units, &global.high)
}

fn joined(rt: &impl Print, units: u16, links: u16, aux: Aux, labels: Labels) -> io::Result<()> {
    say::row(rt, b"joins-parent", units, &aux.parents)?;
    say::row(rt, b"joins-link", links, &aux.links)?;
    say::row(rt, b"class", units, &aux.color)?;
    say::row(rt, b"link-class", links, &labels.class)?;
    say::row(rt, b"label", links, &labels.label)
}

fn plain(rt: &impl Print, s: Survey) -> io::Result<()> {
    let units = s.table.units;
    let links = s.table.links;
    trees(rt, units, s.components, s.tree)?;
    ordered(rt, units, s.order)?;
    ranged(rt, units, s.range, s.global)?;
    joined(rt, units, links, s.aux, s.labels)
}

// The tables by directed tree link.
fn arcs(rt: &impl Print, s: Survey) -> io::Result<()> {
    let units = s.table.units;
    say::arc_row(rt, b"follower", true, units, &s.tree.parent, &s.tour.next)?;
    say::arc_row(
        rt,
        b"predecessor",
        true,
        units,
        &s.tree.parent,
        &s.tour.pred,
    )?;
    say::arc_row(rt, b"working", true, units, &s.tree.parent, &s.ranking.jump)?;
    say::arc_row(rt, b"sum", false, units, &s.tree.parent, &s.ranking.sum)?;
    say::arc_row(
        rt,
        b"forward",
        false,
        units,
        &s.tree.parent,
        &s.order.forward,
    )
}

// Prints the state; whether the survey goes on.
fn state(rt: &impl Print, s: Survey) -> io::Result<bool> {
    let answer = s.status();
    let reply = answer.reply;
    match reply {
        Reply::Status {
            stage,
            countdown,
            rounds,
            requests,
        } => {
            say::head(rt, stage, countdown, rounds, requests)?;
            plain(rt, s)?;
            if 3 <= stage {
                arcs(rt, s)?;
            }
            Ok(stage != 11)
        }
        _ => Ok(false),
    }
}

// All rounds, at most as many as any survey takes.
fn rounds(rt: &impl Print, first: Survey) -> io::Result<()> {
    let mut s = first;
    let mut goes = state(rt, s)?;
    for _ in 0..805 {
        if goes {
            let answer = s.round();
            let next = answer.survey;
            s = next;
            goes = state(rt, s)?;
        }
    }
    Ok(())
}

// The file of argument `i`.
fn one(rt: &(impl Env + Eprint + Files + Print), i: usize) -> io::Result<()> {
    let mut name = base_io::buffer();
    let length = base_io::arg(rt, i, &mut name);
    say::text(rt, &name[..length])?;
    say::newline(rt)?;
    let mut file = match base_io::open_read(rt, &name[..length]) {
        Ok(file) => file,
        Err(error) => return base_io::fail(rt, &name[..length], &error),
    };
    let mut input = base_io::large_buffer();
    let got = base_io::read_full(&mut file, &mut input)?;
    rounds(rt, loads::of(rt, &input[..got])?)
}

fn main(rt: HostRuntime) -> io::Result<()> {
    let count = base_io::arg_count(&rt);
    for i in 1..count {
        one(&rt, i)?;
    }
    Ok(())
}
