// Decoding one instruction (Inst::from_bytes of mm's inst.rs).
#![tactic(auto)]

ghost use Rattle.std.specs.Prelude.{◌≡◌, ◌+◌, ◌≤◌, ◌<◌, length, drop, List, ℕ, IfOk, MatchResult};
ghost use Rattle.word.specs.Words.{word};
ghost use Rattle.inst.specs.Forms.{name};
ghost use Rattle.inst.specs.Records.{plain};
ghost use Rattle.inst_decode.specs.declared.DecodeError.TheVariants.{PastEnd};
ghost use Rattle.inst_decode.specs.Decode.{means, means_name, type_of, is_negative, read_operand, from_bytes};

use inst::{Form, Inst, name_ok, ops};

// Why there is no instruction: no byte, or one that begins none; an operand or a name past the end, or a negative length; a name
// with a byte of 128 or more.
#[derive(Clone, Copy, Debug, PartialEq, Eq)]
pub enum DecodeError {
    Undefined,
    PastEnd,
    BadName,
}

// A record, and the bytes that it was read from.
#[derive(Clone, Copy)]
pub struct Decoded {
    pub inst: Inst,
    pub size: usize,
}

// An instruction without a name, of this size.
fn unnamed(typ: u64, val: u64, size: usize) -> Decoded
    ensures { result ≡ record { inst = plain typ val; size = size } }
{
    Decoded {
        inst: Inst::plain(typ, val),
        size,
    }
}

// IDMP is read as FDMP.
#[tactic(auto, unfolding(crate::specs::Decode::type_of))]
fn type_of(op: u64) -> u64
    ensures { result ≡ type_of op }
{
    if op == ops::IDMP { ops::FDMP } else { op }
}

// The number of an operand's first eight bytes, and what stands behind them.
fn read_eight(operand: &[u8]) -> Result<(u64, &[u8]), DecodeError>
    ensures { MatchResult result (λ r. (8 ≤ length operand.now) × (r.0 ≡ word operand.now 0) × (r.1.now ≡ drop 8 operand.now)) (λ e. (e ≡ PastEnd) × (length operand.now < 8)) }
{
    let (eight, behind) = operand.split_first_chunk().ok_or(DecodeError::PastEnd)?;
    Ok((u64::from_le_bytes(*eight), behind))
}

// Bit 63 of a length field is set and the magnitude isn't 0.
#[tactic(auto, unfolding(crate::specs::Decode::is_negative))]
fn is_negative(field: u64) -> bool
    ensures { result ≡ is_negative field }
{
    field >= 0x8000000000000000 && field % 0x1000000000000 != 0
}

// The name of an operand, behind its length field. The answer is that of whatever image the operand stands in: a name isn't told
// its place.
#[inline(always)]
fn read_name(operand: &[u8]) -> Result<&[u8], DecodeError>
    ensures value { (image : List ℕ) (at op : ℕ) → at < length image → operand.now ≡ drop (at + 1) image → means_name op (at + 9) result ≡ read_operand image at op name }
    ensures inside { IfOk result (λ n. 8 + length n.now ≤ length operand.now) }
{
    let (field, behind) = read_eight(operand)?;
    if is_negative(field) {
        return Err(DecodeError::PastEnd);
    }
    let magnitude = field % 0x1000000000000;
    let name = behind
        .get(..magnitude as usize)
        .ok_or(DecodeError::PastEnd)?;
    if !name_ok(name) {
        return Err(DecodeError::BadName);
    }
    Ok(name)
}

// The instruction at an offset of the image. Each size stands beside the bytes that were read for it. In line: where a load calls
// it, each answer would go through memory.
#[tactic(auto, unfolding(crate::specs::Decode::from_bytes, crate::specs::Decode::read_operand, inst::specs::Forms::means, inst::specs::Forms::form_at))]
#[inline(always)]
pub fn from_bytes(image: &[u8], at: usize) -> Result<Decoded, DecodeError>
    ensures { means result ≡ from_bytes image.now at }
{
    let op = u64::from(*image.get(at).ok_or(DecodeError::Undefined)?);
    let operand = &image[at + 1..];
    match Form::of(op).ok_or(DecodeError::Undefined)? {
        Form::Bare => Ok(unnamed(op, 0, 1)),
        Form::Eight => Ok(unnamed(op, read_eight(operand)?.0, 9)),
        Form::One => {
            let byte = operand.first().ok_or(DecodeError::PastEnd)?;
            Ok(unnamed(type_of(op), u64::from(*byte), 2))
        }
        Form::Name => {
            let len = read_name(operand)?.len();
            let inst = Inst {
                typ: op,
                val: 0,
                start: (at + 9) as u64,
                len: len as u64,
            };
            Ok(Decoded {
                inst,
                size: 9 + len,
            })
        }
    }
}
