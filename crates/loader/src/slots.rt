// What a lent label table is a slice of: bytes, or label records.
ghost use Rattle.std.specs.Prelude.{◌≡◌, refl, List, [], ◌∷◌, ◌++◌, ◌<◌, length, drop};
ghost use Rattle.std.proofs.lemmas.List.Edits.{sets};
ghost use Rattle.machine.specs.declared.Label.{Label};
ghost use Rattle.tables.specs.Tables.{labels_of, label_bytes};
ghost use Rattle.loader.specs.Linking.{linked_on};
ghost use Rattle.loader.specs.Slots.{no_bytes, bytes_kept, records_kept};

use crate::labels::{Linking, head};
use machine::Label;
use tables::labels::LabelTable;

// A slot of a label table that is written. LabelTable, which a lookup reads, is another trait: that one is taken by value, and
// no Copy value could be written to.
pub trait LabelSlot: Sized {
    // The records that a table holds, and the slots that records take in one, from its front on.
    ghost records: { List Self → List Label };

    ghost slots: { List Label → List Self };

    // How many records there are.
    fn count(labels: &[Self]) -> usize
        ensures { result ≡ length (records labels.now) };

    // A label record stored as record i: behind those that were stored, or over the first.
    fn put(labels: &mut [Self], i: usize, label: Label)
        requires { i < length (records labels.old) }
        ensures added { (t : List Self) (ls : List Label) → i ≡ length ls → labels.old ≡ sets t 0 (slots ls) → labels.new ≡ sets t 0 (slots (ls ++ (label ∷ []))) }
        ensures over { (t : List Self) (ls : List Label) → i ≡ 0 → 0 < length ls → labels.old ≡ sets t 0 (slots ls) → labels.new ≡ sets t 0 (slots (label ∷ drop 1 ls)) }
        ensures long { length (records labels.new) ≡ length (records labels.old) };

    ghost none: { slots [] ≡ [] };

    ghost kept: { (t : List Self) (ls : List Label) → length (records (sets t 0 (slots ls))) ≡ length (records t) };
}

impl LabelSlot for u8 {
    ghost records = { labels_of };

    ghost slots = { label_bytes };

    ghost none = { no_bytes };

    ghost kept = { bytes_kept };

    fn count(labels: &[u8]) -> usize {
        labels.count()
    }

    fn put(labels: &mut [u8], i: usize, label: Label) {
        tables::put(labels, i, label);
    }
}

impl LabelSlot for Label {
    ghost records = { λ labels. labels };

    ghost slots = { λ labels. labels };

    ghost none = { refl };

    ghost kept = { records_kept };

    fn count(labels: &[Label]) -> usize {
        labels.count()
    }

    fn put(labels: &mut [Label], i: usize, label: Label) {
        labels[i] = label;
    }
}

// A label record behind those before it, linked first: the head leads to it, and it to the one before it, to which the head led.
// Index 0 makes the head itself, zero.
pub fn link<S: LabelSlot>(labels: &mut [S], l: Linking)
    requires { l.index < length (S.records labels.old) }
    ensures { (t : List S) (before : List Label) → l.index ≡ length before → labels.old ≡ sets t 0 (S.slots before) → labels.new ≡ sets t 0 (S.slots (linked_on l before)) }
{
    S::put(labels, l.index, l.label);
    S::put(labels, 0, head(l.index));
}
