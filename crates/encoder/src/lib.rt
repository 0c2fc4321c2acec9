// The encoder (to_binary of mm): a table of records written out, straight into the output; and the room that it takes.
#![tactic(auto)]

ghost use Rattle.std.specs.Prelude.{◌≡◌, true, ℕ, ◌+◌, ◌*◌, ◌<◌, ◌≤◌, length, take, MatchResult};
ghost use Rattle.std.proofs.lemmas.List.Edits.{sets};
ghost use Rattle.machine.specs.Encode.{all_well_formed, bytes_of_all, in_room, size_of, encode, encoded_size, output_after};
ghost use Rattle.tables.specs.Tables.{insts_of};
ghost use Rattle.encoder.specs.declared.EncodeError.TheVariants.{IllFormed};
ghost use Rattle.encoder.specs.Encoder.{number_of, means, Fits};

use inst_encode::{as_bytes, checked_len};
use tables::Code;

// Why nothing is written. Each has a number, by which a host knows it.
#[derive(Clone, Copy, Debug, PartialEq, Eq)]
pub enum EncodeError {
    IllFormed = 9,
    NoRoom = 10,
}

impl From<EncodeError> for u8 {
    ghost from_gives = { λ error number. number ≡ number_of error };

    fn from(error: EncodeError) -> u8 {
        error as u8
    }
}

// The program of a table's first `count` records, if it has so many.
fn code_of<'a>(image: &'a [u8], insts: &'a [u8], count: usize) -> Result<Code<'a>, EncodeError>
    ensures { MatchResult result (λ code. (code.image.now ≡ image.now) × (code.insts.now ≡ insts.now) × (code.count ≡ count)) (λ e. (e ≡ IllFormed) × (length insts.now < count * 32)) }
{
    Code::new(image, insts, count).ok_or(EncodeError::IllFormed)
}

// The room behind one record of `len` bytes more; None once records passed it.
fn taken(left: Option<usize>, len: usize) -> Option<usize>
    ensures { (room n : ℕ) → Fits room n left → Fits room (n + len) result }
{
    left?.checked_sub(len)
}

// How many bytes are written, without a write. Every record is tested, also behind those that fill the room, since 9 comes before 10.
// Here and in `write` the loop is over indices: `Code::inst` reads record i of a program, whose type says that it is there. Of a chunk
// of the table's bytes another function would read the same four numbers, and the chunks go on behind the program.
fn check(code: Code<'_>, room: usize) -> Result<usize, EncodeError>
    ensures { means result ≡ in_room room (size_of code.entry.image.now (insts_of code.entry.insts.now) code.entry.count) }
{
    let mut left = Some(room);
    for i in 0..code.count {
        let len = checked_len(code.image, code.inst(i)).ok_or(EncodeError::IllFormed)?;
        left = taken(left, len);
    }
    let rest = left.ok_or(EncodeError::NoRoom)?;
    Ok(room - rest)
}

// The records' bytes from the output's front on.
fn write(code: Code<'_>, out: &mut [u8])
    requires insts_value { all_well_formed code.image.now (take code.count (insts_of code.insts.now)) ≡ true }
    requires room { length (bytes_of_all code.image.now (take code.count (insts_of code.insts.now))) ≤ length out.old }
    ensures { out.new ≡ sets out.old 0 (bytes_of_all code.entry.image.now (take code.entry.count (insts_of code.entry.insts.now))) }
{
    let mut at = 0;
    for i in 0..code.count {
        let size = as_bytes(code.image, code.inst(i), out, at);
        at += size;
    }
}

// Writes `count` records of the table, and leaves the rest of the output. With an error nothing is written. That each record's bytes
// begin at the sum of the lengths before it is stated by crate offsets.
pub fn to_binary(
    image: &[u8],
    insts: &[u8],
    count: usize,
    out: &mut [u8],
) -> Result<usize, EncodeError>
    ensures result_value { means result ≡ encode image.now (insts_of insts.now) count out.old }
    ensures out_after { out.new ≡ output_after (encode image.now (insts_of insts.now) count out.old) image.now (insts_of insts.now) count out.old }
{
    let code = code_of(image, insts, count)?;
    let size = check(code, out.len())?;
    write(code, out);
    Ok(size)
}

// The room that the same call of to_binary needs, without writing: the size that it then answers, or 9; 10 where no output has the
// room.
pub fn encoded_size(image: &[u8], insts: &[u8], count: usize) -> Result<usize, EncodeError>
    ensures { means result ≡ encoded_size image.now (insts_of insts.now) count }
{
    let code = code_of(image, insts, count)?;
    check(code, usize::MAX)
}
