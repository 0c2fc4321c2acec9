// The pass over a filled instruction table that links its labels: which label record comes next.
ghost use Rattle.std.specs.Prelude.{◌≡◌, ◌+◌, ◌^◌, ◌<◌, take, drop};
ghost use Rattle.machine.specs.Load.{head};
ghost use Rattle.tables.specs.Tables.{inst_of, insts_of};
ghost use Rattle.loader.specs.Linking.{head_link, label_link, next_link, NextLabel, Covers};

use inst::ops;
use machine::Label;
use tables::Code;

// A label record to be linked: its index, and the record, which leads to the one before it; with how many instructions were passed
// when it was found, and how many label records there are. The head's index is 0, its place in the table like any other's: where
// the record is stored it is no case of its own.
#[derive(Clone, Copy)]
pub struct Linking {
    pub index: usize,
    pub label: Label,
    pub passed: usize,
    pub labels: usize,
}

// The head, which leads to the record `index`.
pub fn head(index: usize) -> Label
    ensures { result ≡ head index }
{
    Label {
        start: 0,
        len: 0,
        target: 0,
        next: index as u64,
    }
}

// The start of the pass: the head.
pub fn head_link(labels: usize) -> Linking
    ensures { result ≡ head_link labels }
{
    Linking {
        index: 0,
        label: head(0),
        passed: 0,
        labels,
    }
}

// The first LABEL from instruction `from` on.
fn next_label(code: Code<'_>, from: usize) -> Option<usize>
    ensures { NextLabel code.entry.insts.now code.entry.count from result }
{
    (from..code.count).find(|n| code.op(*n) == ops::LABEL)
}

// The label that is instruction n, behind the record l.
fn label_link(code: Code<'_>, l: Linking, n: usize) -> Linking
    requires { (n < code.count) × (l.index + 1 < 2 ^ 64) }
    ensures { result ≡ label_link l n (inst_of code.entry.insts.now n) }
{
    let i = code.inst(n);
    Linking {
        index: l.index + 1,
        label: Label {
            start: i.start,
            len: i.len,
            target: n as u64,
            next: l.index as u64,
        },
        passed: n + 1,
        ..l
    }
}

// The next LABEL of those not yet passed. Behind the last label record nothing is read. Here `load` alone calls it, with the table
// that was filled; public, with load_insts and head_link, for a pass over a label table of another kind.
pub fn next_link(code: Code<'_>, l: Linking) -> Option<Linking>
    requires { Covers code.insts.now code.count l }
    ensures { result ≡ next_link l l.passed (drop l.passed (take code.entry.count (insts_of code.entry.insts.now))) }
{
    if l.index + 1 == l.labels {
        return None;
    }
    let n = next_label(code, l.passed)?;
    Some(label_link(code, l, n))
}
