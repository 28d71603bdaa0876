// The fields of a report's lines, as the questions answer them.
ghost use Rattle.std.specs.Prelude.{◌≡◌};
ghost use Rattle.spec_machine.specs.Report.{unit_color, unit_parent, unit_place, unit_single, link_label, link_lone};
ghost use Rattle.survey.specs.View.{of};

use survey::{Reply, Survey};

// The fields of unit `v`'s line.
pub(crate) fn unit_reply(s: Survey, v: u16) -> Reply
    ensures { result ≡ Reply.Unit v (unit_color (of s) v) (unit_parent (of s) v) (unit_place (of s) v)
        (unit_single (of s) v) }
{
    let i = v as usize;
    Reply::Unit {
        unit: v,
        color: base_slices::word(&s.components.color, i),
        parent: base_slices::word(&s.tree.parent, i),
        place: base_slices::word(&s.order.pre, i),
        single: report_flags::single(s.table.links, &s.table.ends, &s.labels.label, v),
    }
}

// The fields of link `j`'s line.
pub(crate) fn link_reply(s: Survey, j: u16) -> Reply
    ensures { result ≡ Reply.Link j (link_label (of s) j) (link_lone (of s) j) }
{
    Reply::Link {
        position: j,
        label: base_slices::word(&s.labels.label, j as usize),
        lone: report_flags::lone(s.table.links, &s.labels.label, j),
    }
}
