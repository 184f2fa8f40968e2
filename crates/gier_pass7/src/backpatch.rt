// Room for symbols before what waits in the outbox already, and other numbers for the labels there.
ghost use Rattle.std.specs.Prelude.{◌≡◌};
ghost use Rattle.gier_text.specs.TablesModel.{tables_model};
ghost use Rattle.gier_pass7.specs.Codes.{relocated_label};

use crate::lists::{head_at, set_outbox, value_at};
use crate::orders::tag_in;
use crate::state::State;
use gier_limits::ADDRESSES;
use gier_symbol::Tag;
use gier_text::Tables;

/// The labels of a switch's elements are numbered before those within them, whose numbers are this much too great until it is known
/// how many elements there are.
pub(crate) const FORWARD_LABELS: u64 = 1 << 22;

fn is_tag(tag: u64, kind: Tag) -> bool {
    tag == u64::from(kind.number())
}

// A label number, where labels from this one on have numbers from another one on.
fn moved(label: u64, first: u64, target: u64) -> u64
    ensures { result ≡ relocated_label label first target }
{
    if label < first {
        label
    } else {
        label.saturating_sub(first).saturating_add(target)
    }
}

// The value of a symbol where labels are moved.
fn moved_value(tag: u64, value: u64, first: u64, target: u64) -> u64 {
    if is_tag(tag, Tag::LabelPlace) || is_tag(tag, Tag::LabelWord) {
        moved(value, first, target)
    } else if is_tag(tag, Tag::LabelOrder) {
        let label = value % ADDRESSES;
        (value - label).saturating_add(moved(label, first, target))
    } else {
        value
    }
}

impl State {
    ghost use Rattle.gier_pass7.specs.StateInvariants.{StateInvariant, PreservesState};

    // Moves what waits from a place on by so many entries, and gives the labels from the first one on there numbers from the target
    // on.
    pub(crate) fn gap(&mut self, tables: &mut Tables, at: u64, count: u64, first: u64, target: u64)
        requires ready { StateInvariant self.old (tables_model tables.old) }
        ensures { PreservesState self.old (tables_model tables.old) self.new (tables_model tables.new) }
    {
        let end = self.place(tables);
        self.reserve(tables, count);
        for back in 0..end.saturating_sub(at) {
            let from = end.saturating_sub(back).saturating_sub(1);
            let head = head_at(self.bytes, tables, from);
            let value = value_at(self.bytes, tables, from);
            let value = moved_value(tag_in(head), value, first, target);
            set_outbox(self.bytes, tables, from.saturating_add(count), head, value);
        }
        self.label = moved(self.label, first, target);
    }
}
