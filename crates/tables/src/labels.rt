// A lent label table, as a lookup reads it: by records, whether it is a slice of bytes or a slice of records.
ghost use Rattle.std.specs.Prelude.{◌≡◌, List, ◌<◌, length, get_or};
ghost use Rattle.machine.specs.declared.Label.{Label};
ghost use Rattle.tables.specs.Tables.{labels_of};

use crate::{RECORD, record_at};
use machine::Label;

// Reading alone, by a Copy value that a run takes as it is. The loader writes labels through a trait of its own, since no Copy
// value could be written to.
pub trait LabelTable: Copy {
    // The records that it holds, in order.
    ghost records: { Self → List Label };

    // How many there are.
    fn count(self) -> usize
        ensures { result ≡ length (records self) };

    // Record i.
    fn record(self, i: usize) -> Label
        requires { i < length (records self) }
        ensures { (d : Label) → result ≡ get_or (records self) i d };
}

impl<'a> LabelTable for &'a [u8] {
    ghost records = { λ bytes. labels_of bytes.now };

    fn count(self) -> usize {
        self.len() / RECORD
    }

    fn record(self, i: usize) -> Label {
        record_at(self, i)
    }
}

impl<'a> LabelTable for &'a [Label] {
    ghost records = { λ labels. labels.now };

    fn count(self) -> usize {
        self.len()
    }

    fn record(self, i: usize) -> Label {
        self[i]
    }
}
