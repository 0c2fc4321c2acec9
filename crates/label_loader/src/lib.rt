// The load into a label table that is a lent slice of records, for the oracle (crate label_loader_c exports it).
#![tactic(auto)]

ghost use Rattle.std.specs.Prelude.{◌≡◌};
ghost use Rattle.label_loader.specs.Loading.{numbers_of, load_call};

use loader::{Accepted, Refusal, load};
use machine::Label;

// What a load answers: 0, with the fresh machine's pointer and the count of instructions; or the number of a refusal, with zeros.
// The fresh machine itself is the caller's to make: all zero but the pointer. A C struct with a number, since an enum doesn't
// cross to C.
#[repr(C)]
#[derive(Clone, Copy)]
pub struct LoadAnswer {
    pub number: u64,
    pub ip: u64,
    pub count: u64,
}

impl From<Result<Accepted, Refusal>> for LoadAnswer {
    ghost from_gives = { λ r a. a ≡ numbers_of r };

    fn from(loaded: Result<Accepted, Refusal>) -> LoadAnswer {
        match loaded {
            Ok(a) => LoadAnswer {
                number: 0,
                ip: a.ip as u64,
                count: a.count as u64,
            },
            Err(refusal) => LoadAnswer {
                number: u64::from(u8::from(refusal)),
                ip: 0,
                count: 0,
            },
        }
    }
}

// mm's from_binary.
pub fn mm_load_labels(image: &[u8], insts: &mut [u8], labels: &mut [Label]) -> LoadAnswer
    ensures { load_call image.now insts.old labels.old ≡ record { number = result.number; ip = result.ip; count = result.count; insts = insts.new; labels = labels.new } }
{
    LoadAnswer::from(load(image, insts, labels))
}
