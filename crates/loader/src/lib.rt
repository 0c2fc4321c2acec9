// The loader (Mm::from_binary of mm's mm.rs): an image read into two lent tables.
// A first pass without a write finds every refusal, the pointer and the count (checking, reading); a second one fills the
// instruction table (filling); a third, over the filled table, links the labels (labels).
#![tactic(auto)]

ghost use Rattle.std.specs.Prelude.{◌≡◌};
ghost use Rattle.machine.specs.Load.{load};
ghost use Rattle.tables.specs.Tables.{insts_of};
ghost use Rattle.loader.specs.Loading.{fresh_at, FromBinary, LoadTables};

mod checking;
mod filling;
mod labels;
mod reading;
mod refusal;
mod slots;

pub use filling::load_insts;
pub use labels::{Linking, head_link, next_link};
use machine::{CALL_LIMIT, MEMORY_SIZE, Machine, STACK_LIMIT};
pub use reading::Counts;
pub use refusal::Refusal;
pub use slots::LabelSlot;
use slots::link;
use tables::{Code, RECORD};

// The limits of document 01: an image's bytes, its instructions, and the records of a label table. All are public, since a host's
// sizes go by them.
pub const IMAGE_LIMIT: usize = 16384;

pub const INST_LIMIT: usize = 4096;

pub const LABEL_RECORDS: usize = 513;

// The bytes of the shortest tables that a load takes.
pub const INST_BYTES: usize = INST_LIMIT * RECORD;

pub const LABEL_BYTES: usize = LABEL_RECORDS * RECORD;

// What an accepted image begins with: the pointer and the count. `fresh` makes the machine of the pointer.
#[derive(Clone, Copy)]
pub struct Accepted {
    pub ip: usize,
    pub count: usize,
}

// The same, and how many label records the image has, the head counted.
#[derive(Clone, Copy)]
pub struct Checked {
    pub accepted: Accepted,
    pub labels: usize,
}

// The fresh machine: not halted, empty stacks with every slot 0, zero bytes, flags 0.
pub fn fresh(ip: usize) -> Machine
    ensures { result ≡ fresh_at ip }
{
    Machine {
        stack: [0; STACK_LIMIT],
        height: 0,
        calls: [0; CALL_LIMIT],
        call_height: 0,
        memory: [0; MEMORY_SIZE],
        flags: 0,
        ip,
        halted: false,
    }
}

// A load into a label table of bytes or of records. Under from_binary only this function, `link` and `LabelSlot` hold it.
pub fn load<S: LabelSlot>(
    image: &[u8],
    insts: &mut [u8],
    labels: &mut [S],
) -> Result<Accepted, Refusal>
    ensures { LoadTables S.slots (load image.now (insts_of insts.old) (S.records labels.old)) insts.old labels.old result insts.new labels.new }
{
    let checked = load_insts(image, insts, S::count(labels))?;
    let code = Code {
        image,
        insts,
        count: checked.accepted.count,
    };
    let mut next = Some(head_link(checked.labels));
    while let Some(l) = next {
        link(labels, l);
        next = next_link(code, l);
    }
    Ok(checked.accepted)
}

// The call, with both tables lent as bytes.
pub fn from_binary(image: &[u8], insts: &mut [u8], labels: &mut [u8]) -> Result<Accepted, Refusal>
    ensures { FromBinary image.now insts.old labels.old result insts.new labels.new }
{
    load(image, insts, labels)
}
