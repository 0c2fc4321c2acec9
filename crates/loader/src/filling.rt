// The instruction table: the records of an accepted image, and all of a load that holds no label table.
ghost use Rattle.std.specs.Prelude.{◌≡◌, cond, List, ◌*◌, ◌≤◌, length, ltb};
ghost use Rattle.std.proofs.lemmas.List.Edits.{sets};
ghost use Rattle.machine.specs.declared.Label.{Label};
ghost use Rattle.machine.specs.Limits.{inst_limit};
ghost use Rattle.machine.specs.Load.{halt, loads, load};
ghost use Rattle.tables.specs.Tables.{bytes_of, inst_numbers, insts_of};
ghost use Rattle.loader.specs.Loading.{insts_left, Accepts, LoadInsts};

use crate::checking::check;
use crate::{Checked, INST_LIMIT, LABEL_RECORDS, Refusal};
use inst::{Inst, ops};
use inst_decode::{Decoded, from_bytes};
use tables::{RECORD, put};

// The HALT that a load appends, behind the instructions, where the first pass counted it. Here and in `fill` the table is written,
// and `Code`, whose type says that a program's records are there, lends it read-only: so a `requires` says it.
fn close(insts: &mut [u8], index: usize, count: usize)
    requires { count * 32 ≤ length insts.old }
    ensures { insts.new ≡ cond (ltb index count) (sets insts.old (index * 32) (bytes_of (inst_numbers halt))) insts.old }
{
    if index < count {
        put(insts, index, Inst::plain(ops::HALT, 0));
    }
}

// Every instruction record of an accepted image and the appended HALT, into a table that has room. Each is there to decode: the
// first pass found no refusal. As there, each step is as long as what was read, and the record's index goes with it.
fn fill(image: &[u8], insts: &mut [u8], count: usize)
    requires accepts { Accepts image.now count }
    requires inst_limit_in_bounds { inst_limit * 32 ≤ length insts.old }
    ensures { insts.new ≡ insts_left (loads image.now) insts.old }
{
    let mut at = 0;
    let mut n = 0;
    while at < image.len() {
        let Decoded { inst: i, size } = from_bytes(image, at).unwrap();
        put(insts, n, i);
        at += size;
        n += 1;
    }
    close(insts, n, count);
}

// A load but for its label table, of which `labels` records are lent: the answer, and the instruction table.
pub fn load_insts(image: &[u8], insts: &mut [u8], labels: usize) -> Result<Checked, Refusal>
    ensures { (ls : List Label) → length ls ≡ labels → LoadInsts (load image.now (insts_of insts.old) ls) insts.old result insts.new }
{
    if insts.len() / RECORD < INST_LIMIT || labels < LABEL_RECORDS {
        return Err(Refusal::NoRoom);
    }
    let checked = check(image)?;
    fill(image, insts, checked.accepted.count);
    Ok(checked)
}
