// What is counted.
use std::fmt;

#[derive(Clone, Copy)]
pub(crate) struct Counts {
    pub tables: u64,
    pub units: u64,
    pub links: u64,
    pub singles: u64,
    pub lones: u64,
    pub labels: u64,
    pub differences: u64,
}

impl Counts {
    pub(crate) fn new() -> Counts {
        Counts {
            tables: 0,
            units: 0,
            links: 0,
            singles: 0,
            lones: 0,
            labels: 0,
            differences: 0,
        }
    }

    pub(crate) fn add(&mut self, more: &Counts) {
        self.tables = self.tables.wrapping_add(more.tables);
        self.units = self.units.wrapping_add(more.units);
        self.links = self.links.wrapping_add(more.links);
        self.singles = self.singles.wrapping_add(more.singles);
        self.lones = self.lones.wrapping_add(more.lones);
        self.labels = self.labels.wrapping_add(more.labels);
        self.differences = self.differences.wrapping_add(more.differences);
    }

    // What the library says of a unit, single point or not, and whether the second survey says the same.
    pub(crate) fn single(&mut self, found: bool, same: bool) {
        self.singles = self.singles.wrapping_add(u64::from(found));
        self.agree(same);
    }

    // Of a link, lone or not.
    pub(crate) fn lone(&mut self, found: bool, same: bool) {
        self.lones = self.lones.wrapping_add(u64::from(found));
        self.agree(same);
    }

    // Of a link, whose label it is or not.
    pub(crate) fn label(&mut self, found: bool, same: bool) {
        self.labels = self.labels.wrapping_add(u64::from(found));
        self.agree(same);
    }

    fn agree(&mut self, same: bool) {
        self.differences = self.differences.wrapping_add(u64::from(!same));
    }
}

impl fmt::Display for Counts {
    fn fmt<W: fmt::Write>(&self, f: &mut fmt::Formatter<W>) -> fmt::Result {
        let Counts {
            tables,
            units,
            links,
            singles,
            lones,
            labels,
            differences,
        } = *self;
        write!(
            f,
            "{tables} {units} {links} {singles} {lones} {labels} {differences}"
        )
    }
}
