// A lent program but for its labels: the image and the instruction table, of which so many records are the program.
ghost use Rattle.std.specs.Prelude.{◌≡◌, ◌+◌, ◌*◌, ◌<◌, ◌≤◌, length, MatchOption};
ghost use Rattle.inst.specs.Records.{well_formed};
ghost use Rattle.tables.specs.Tables.{number_at, inst_of};

use crate::{RECORD, number_at, record_at};
use inst::Inst;

#[derive(Clone, Copy, Drop)]
pub struct Code<'a> {
    pub image: &'a [u8],
    pub insts: &'a [u8],
    pub count: usize,
    pub ghost inside: { count * 32 ≤ length insts.now },
}

impl<'a> Code<'a> {
    // The first `count` records of a table; None where it has fewer.
    pub fn new(image: &'a [u8], insts: &'a [u8], count: usize) -> Option<Code<'a>>
        ensures { MatchOption result (length insts.now < count * 32) (λ c. (c.image.now ≡ image.now) × (c.insts.now ≡ insts.now) × (c.count ≡ count)) }
    {
        if insts.len() / RECORD < count {
            return None;
        }
        Some(Code {
            image,
            insts,
            count,
        })
    }

    // The first byte of record i. A record is four numbers that were lent, so any number may stand there.
    pub fn op(self, i: usize) -> u64
        requires { i < self.count }
        ensures { result ≡ number_at self.entry.insts.now (i * 4) }
    {
        number_at(self.insts, i * 4)
    }

    // Its cell, number or stream.
    pub fn operand(self, i: usize) -> u64
        requires { i < self.count }
        ensures { result ≡ number_at self.entry.insts.now (i * 4 + 1) }
    {
        number_at(self.insts, i * 4 + 1)
    }

    // Record i.
    pub fn inst(self, i: usize) -> Inst
        requires { i < self.count }
        ensures { result ≡ inst_of self.entry.insts.now i }
    {
        record_at(self.insts, i)
    }

    // Whether record i is none that number 34 calls ill.
    pub fn is_well_formed(self, i: usize) -> bool
        requires { i < self.count }
        ensures { result ≡ well_formed self.entry.image.now (inst_of self.entry.insts.now i) }
    {
        inst::is_well_formed(self.image, self.inst(i))
    }
}
