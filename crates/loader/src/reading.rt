// Reading an image instruction by instruction.
ghost use Rattle.std.specs.Prelude.{◌≡◌, List, ℕ, ◌+◌, ◌^◌, ◌<◌, ◌&&◌, leb, length, IfOk};
ghost use Rattle.inst.specs.Records.{part, same};
ghost use Rattle.inst_decode.specs.Decode.{from_bytes};
ghost use Rattle.machine.specs.Limits.{inst_limit, label_records};
ghost use Rattle.machine.specs.Load.{start_name, Scan, begin, scan_one};
ghost use Rattle.loader.specs.Refusals.{numbered};
ghost use Rattle.loader.specs.Reading.{counts_of, next_of, Further};
ghost use Rattle.loader.specs.Reading as definition;

use crate::{INST_LIMIT, LABEL_RECORDS, Refusal};
use inst::{ops, part, same_name};
use inst_decode::{Decoded, from_bytes};

// What is kept of an image that was read so far: the next byte, the instructions, the label records with their head, the last
// target of `_start`, whether there was a NATIVE, and whether the last instruction is HALT: two answers that always mean
// something, also before the first instruction.
#[derive(Clone, Copy)]
pub struct Counts {
    pub at: usize,
    pub insts: usize,
    pub labels: usize,
    pub start: Option<usize>,
    pub native: bool,
    pub halt: bool,
}

impl Counts {
    // Before the first instruction: the label table has its head.
    pub fn first() -> Counts
        ensures { (image : List ℕ) → result ≡ counts_of image begin }
    {
        Counts {
            at: 0,
            insts: 0,
            labels: 1,
            start: None,
            native: false,
            halt: false,
        }
    }

    // An instruction more, whatever it is.
    fn counted(self, typ: u64, size: usize) -> Counts
        requires insts_lt_inst_limit { self.insts < inst_limit }
        requires size_bound { self.at + size < 2 ^ 64 }
        ensures { result ≡ definition.counted self typ size }
    {
        Counts {
            at: self.at + size,
            insts: self.insts + 1,
            native: self.native || typ == ops::NATIVE,
            halt: typ == ops::HALT,
            ..self
        }
    }

    // A label record more. `start` is its target where it defines `_start`.
    fn labelled(self, start: Option<usize>) -> Counts
        requires { self.labels < label_records }
        ensures { result ≡ definition.labelled self start }
    {
        Counts {
            labels: self.labels + 1,
            start: start.or(self.start),
            ..self
        }
    }
}

// Whether that part of the image is there and is `_start`, by same_name, which says it in the definition's word.
fn is_start(image: &[u8], start: u64, len: u64) -> bool
    ensures { result ≡ (leb (start + len) (length image.now) && same start_name (part image.now start len)) }
{
    part(image, start, len).is_some_and(|name| same_name(b"_start", name))
}

// One instruction more: 2, 3 or 4, then 5, 6. The answer is that of whatever scan the counts stand for: only the first
// pass calls it, with counts that stand for one.
pub fn next_inst(image: &[u8], c: Counts) -> Result<Counts, Refusal>
    ensures value { (s : Scan) → 0 < length s.labels → c ≡ counts_of image.now s → numbered result ≡ next_of image.now (scan_one s (from_bytes image.now s.at)) }
    ensures ahead { IfOk result (λ d. Further (length image.now) c d) }
{
    let Decoded { inst: i, size } = from_bytes(image, c.at)?;
    if c.insts >= INST_LIMIT {
        return Err(Refusal::TooManyInstructions);
    }
    let d = c.counted(i.typ, size);
    if i.typ != ops::LABEL {
        return Ok(d);
    }
    if c.labels >= LABEL_RECORDS {
        return Err(Refusal::TooManyLabels);
    }
    let start = is_start(image, i.start, i.len).then_some(c.insts);
    Ok(d.labelled(start))
}
