// Printing rows of tables.
use std::io;

pub(crate) fn text(rt: &impl Print, s: &[u8]) -> io::Result<()> {
    base_io::write_all(rt, s)
}

pub(crate) fn newline(rt: &impl Print) -> io::Result<()> {
    base_io::write_all(rt, b"\n")
}

fn space(rt: &impl Print) -> io::Result<()> {
    base_io::write_all(rt, b" ")
}

fn number(rt: &impl Print, n: u16) -> io::Result<()> {
    base_io::print_decimal(rt, n as u64)
}

// A number, or a dash where it is absent.
fn entry(rt: &impl Print, x: u16) -> io::Result<()> {
    if x == 65535 {
        base_io::write_all(rt, b"-")
    } else {
        number(rt, x)
    }
}

fn said(rt: &impl Print, word: &[u8], n: u16) -> io::Result<()> {
    text(rt, word)?;
    number(rt, n)
}

pub(crate) fn head(
    rt: &impl Print,
    stage: u16,
    countdown: u16,
    rounds: u16,
    requests: u16,
) -> io::Result<()> {
    said(rt, b"round ", rounds)?;
    said(rt, b" stage ", stage)?;
    said(rt, b" countdown ", countdown)?;
    said(rt, b" requests ", requests)?;
    newline(rt)
}

fn entries(rt: &impl Print, count: u16, t: &[u16]) -> io::Result<()> {
    for i in 0..count {
        space(rt)?;
        entry(rt, base_slices::word(t, i as usize))?;
    }
    Ok(())
}

pub(crate) fn row(rt: &impl Print, name: &[u8], count: u16, t: &[u16]) -> io::Result<()> {
    text(rt, name)?;
    entries(rt, count, t)?;
    newline(rt)
}

// An arc as its two units.
fn arc(rt: &impl Print, parent: &[u16], a: u16) -> io::Result<()> {
    let v = a / 2;
    let p = base_slices::word(parent, v as usize);
    if a % 2 == 0 {
        number(rt, p)?;
        base_io::write_all(rt, b">")?;
        number(rt, v)
    } else {
        number(rt, v)?;
        base_io::write_all(rt, b">")?;
        number(rt, p)
    }
}

// What stands for an arc: another arc, or a number.
fn arc_entry(rt: &impl Print, names: bool, parent: &[u16], x: u16) -> io::Result<()> {
    if names {
        if x == 65535 {
            base_io::write_all(rt, b"-")
        } else {
            arc(rt, parent, x)
        }
    } else {
        number(rt, x)
    }
}

fn between<'a>(
    rt: &impl Print,
    names: bool,
    parent: &'a [u16],
    t: &'a [u16],
    u: u16,
    v: u16,
    a: usize,
) -> io::Result<()> {
    space(rt)?;
    number(rt, u)?;
    base_io::write_all(rt, b">")?;
    number(rt, v)?;
    base_io::write_all(rt, b":")?;
    arc_entry(rt, names, parent, base_slices::word(t, a))
}

// The arc from `u` to `v`, where the tree has one.
fn arc_from<'a>(
    rt: &impl Print,
    names: bool,
    parent: &'a [u16],
    t: &'a [u16],
    u: u16,
    v: u16,
) -> io::Result<()> {
    if base_slices::word(parent, v as usize) == u {
        between(rt, names, parent, t, u, v, 2 * (v as usize))
    } else {
        if base_slices::word(parent, u as usize) == v {
            between(rt, names, parent, t, u, v, 2 * (u as usize) + 1)
        } else {
            Ok(())
        }
    }
}

fn arcs_from<'a>(
    rt: &impl Print,
    names: bool,
    units: u16,
    parent: &'a [u16],
    t: &'a [u16],
    u: u16,
) -> io::Result<()> {
    for v in 0..units {
        arc_from(rt, names, parent, t, u, v)?;
    }
    Ok(())
}

fn all_arcs<'a>(
    rt: &impl Print,
    names: bool,
    units: u16,
    parent: &'a [u16],
    t: &'a [u16],
) -> io::Result<()> {
    for u in 0..units {
        arcs_from(rt, names, units, parent, t, u)?;
    }
    Ok(())
}

pub(crate) fn arc_row<'a>(
    rt: &impl Print,
    name: &[u8],
    names: bool,
    units: u16,
    parent: &'a [u16],
    t: &'a [u16],
) -> io::Result<()> {
    text(rt, name)?;
    all_arcs(rt, names, units, parent, t)?;
    newline(rt)
}
