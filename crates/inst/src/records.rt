// Names as parts of the image, and the well-formed record.
ghost use Rattle.std.specs.Prelude.{◌≡◌, ◌+◌, ◌≤◌, ◌<◌, length, MatchOption, true, false};
ghost use Rattle.inst.specs.Forms.{form_at};
ghost use Rattle.inst.specs.Records.{plain, name_ok, name_in, part, same, fits, well_formed};

use crate::Inst;
use crate::forms::Form;

impl Inst {
    // A record of which only the first byte and the operand are used.
    pub fn plain(typ: u64, val: u64) -> Inst
        ensures { result ≡ plain typ val }
    {
        Inst {
            typ,
            val,
            start: 0,
            len: 0,
        }
    }
}

// The check of a name of eight bytes or more: the library's, which reads words. It is no part of its callers' loops.
#[inline(never)]
fn long_name_ok(bytes: &[u8]) -> bool
    ensures { result ≡ name_ok bytes.now }
{
    bytes.is_ascii()
}

// The check of a name: every byte is below 128. Named as its definition, which callers' contracts cite. Of a short name each byte is
// looked at in place: the library's check is longer, and as a call it takes an encoding of names half as long again.
pub fn name_ok(bytes: &[u8]) -> bool
    ensures { result ≡ name_ok bytes.now }
{
    if bytes.len() < 8 {
        bytes.iter().all(|b| *b < 128)
    } else {
        long_name_ok(bytes)
    }
}

// Whether two names are the same bytes. `==` under the definition's name: what goes by names cites `same`.
pub fn same_name(a: &[u8], b: &[u8]) -> bool
    ensures { result ≡ same a.now b.now }
{
    a == b
}

// The part of the image that starts there and is so long; None where it passes the end. Its end is never computed, so it can't
// wrap. A u64 becomes a usize by `as`, which is proved to lose nothing: there is no From between the two.
pub fn part(image: &[u8], start: u64, len: u64) -> Option<&[u8]>
    ensures { MatchOption result (length image.now < start + len) (λ p. (start + len ≤ length image.now) × (p.now ≡ part image.now start len)) }
{
    image.get(start as usize..)?.get(..len as usize)
}

// A name: the part of the image, if it passes its check. In line: else the slice goes through memory for each record of a chain or a
// table, and names of a few letters take half as long again.
#[inline(always)]
pub fn name(image: &[u8], start: u64, len: u64) -> Option<&[u8]>
    ensures { MatchOption result (name_in image.now start len ≡ false) (λ n. (name_in image.now start len ≡ true) × (n.now ≡ part image.now start len)) }
{
    let name = part(image, start, len)?;
    if name_ok(name) { Some(name) } else { None }
}

// Whether a name lies in the image and passes its check.
pub fn name_in(image: &[u8], start: u64, len: u64) -> bool
    ensures { result ≡ name_in image.now start len }
{
    name(image, start, len).is_some()
}

impl Form {
    // Whether a record's fields are as the form asks. In line: else the encoder's loops call it for each record.
    #[inline(always)]
    #[tactic(auto, unfolding(crate::specs::Records::fits, crate::specs::Forms::form_at))]
    pub fn fits(self, image: &[u8], inst: Inst) -> bool
        ensures { result ≡ fits image.now inst (form_at self) }
    {
        let no_name = inst.start == 0 && inst.len == 0;
        match self {
            Form::Bare => inst.val == 0 && no_name,
            Form::Eight => no_name,
            Form::One => inst.val <= 255 && no_name,
            Form::Name => inst.val == 0 && name_in(image, inst.start, inst.len),
        }
    }
}

// Whether a record is none that number 34 calls ill.
#[tactic(auto, unfolding(crate::specs::Records::well_formed))]
pub fn is_well_formed(image: &[u8], inst: Inst) -> bool
    ensures { result ≡ well_formed image.now inst }
{
    Form::of(inst.typ).is_some_and(|form| form.fits(image, inst))
}
