// Encoding one well-formed record (Inst::as_bytes of mm's inst.rs), straight into the output.
#![tactic(auto)]

ghost use Rattle.std.specs.Prelude.{◌≡◌, true, cond, ◌++◌, ◌+◌, ◌≤◌, ◌<◌, ◌^◌, length, Some, None};
ghost use Rattle.std.proofs.lemmas.List.Edits.{sets};
ghost use Rattle.inst.specs.Forms.{form_at};
ghost use Rattle.inst.specs.Records.{well_formed};
ghost use Rattle.inst_encode.specs.Encode.{bytes_of, size_by, as_bytes};

use inst::{Form, Inst, part};
use word::put_word;

// A name's length field and its bytes, at the front of the output.
fn put_named(out: &mut [u8], name: &[u8])
    requires { 8 + length name.now ≤ length out.old }
    ensures { out.new ≡ sets out.old 0 (bytes_of 8 (length name.now) ++ name.now) }
{
    put_word(out, 0, name.len() as u64);
    out[8..8 + name.len()].copy_from_slice(name);
}

// How many bytes a record of that form is written in, with a name of this length.
#[tactic(auto, unfolding(crate::specs::Encode::size_by, inst::specs::Forms::form_at))]
fn size(form: Form, len: u64) -> usize
    requires { size_by (form_at form) len < 2 ^ 64 }
    ensures { result ≡ size_by (form_at form) len }
{
    match form {
        Form::Bare => 1,
        Form::Eight => 9,
        Form::One => 2,
        Form::Name => 9 + len as usize,
    }
}

// How many bytes a record is written in; None for one that number 34 calls ill. One search for the form serves both.
pub fn checked_len(image: &[u8], inst: Inst) -> Option<usize>
    ensures { result ≡ cond (well_formed image.now inst) (Some (length (as_bytes image.now inst))) None }
{
    let form = Form::of(inst.typ)?;
    if !form.fits(image, inst) {
        return None;
    }
    Some(size(form, inst.len))
}

// A record's bytes at the front of the output.
#[tactic(auto, unfolding(crate::specs::Encode::as_bytes, crate::specs::Encode::operand_bytes, inst::specs::Forms::means, inst::specs::Forms::form_at))]
fn put_front(image: &[u8], inst: Inst, out: &mut [u8]) -> usize
    requires inst_value { well_formed image.now inst ≡ true }
    requires inst_in_bounds { length (as_bytes image.now inst) ≤ length out.old }
    ensures value { result ≡ length (as_bytes image.now inst) }
    ensures out_after { out.new ≡ sets out.old 0 (as_bytes image.now inst) }
{
    let form = Form::of(inst.typ).unwrap();
    out[0] = inst.typ as u8;
    match form {
        Form::Bare => {}
        Form::Eight => put_word(out, 1, inst.val),
        Form::One => out[1] = inst.val as u8,
        Form::Name => {
            let name = part(image, inst.start, inst.len).unwrap();
            put_named(&mut out[1..], name);
        }
    }
    size(form, inst.len)
}

// Writes a record's bytes from `at` on and returns how many they are. The rest of the output stays.
// The caller tests the record and the room first (9 and 10 of the encoder).
pub fn as_bytes(image: &[u8], inst: Inst, out: &mut [u8], at: usize) -> usize
    requires inst_value { well_formed image.now inst ≡ true }
    requires inst_in_bounds { at + length (as_bytes image.now inst) ≤ length out.old }
    ensures value { result ≡ length (as_bytes image.now inst) }
    ensures out_after { out.new ≡ sets out.old at (as_bytes image.now inst) }
{
    put_front(image, inst, &mut out[at..])
}
