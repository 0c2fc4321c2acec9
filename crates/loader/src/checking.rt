// The first pass: every refusal, the pointer and the count. It writes nothing.
ghost use Rattle.std.specs.Prelude.{◌≡◌, List, ℕ, ◌≤◌};
ghost use Rattle.machine.specs.Limits.{inst_limit};
ghost use Rattle.machine.specs.Load.{Scan, goes, loads, finished};
ghost use Rattle.loader.specs.Refusals.{numbered};
ghost use Rattle.loader.specs.Reading.{counts_of};
ghost use Rattle.loader.specs.Loading.{checked_of};

use crate::reading::{Counts, next_inst};
use crate::{Accepted, Checked, IMAGE_LIMIT, INST_LIMIT, Refusal};

// After the last byte: 7; HALT is appended unless the last instruction is HALT, 5 again; 8.
fn finish(c: Counts) -> Result<Checked, Refusal>
    requires { c.insts ≤ inst_limit }
    ensures { (image : List ℕ) (s : Scan) → c ≡ counts_of image s → numbered result ≡ checked_of (finished image (goes s)) }
{
    let ip = c.start.ok_or(Refusal::NoStart)?;
    let count = if c.halt { c.insts } else { c.insts + 1 };
    if count > INST_LIMIT {
        return Err(Refusal::TooManyInstructions);
    }
    if c.native {
        return Err(Refusal::Native);
    }
    Ok(Checked {
        accepted: Accepted { ip, count },
        labels: c.labels,
    })
}

// What an image gives, whatever tables are lent. Here and in `fill` the loop steps by each instruction's size: an iterator of
// decoded instructions would keep image and offset in a struct with laws of its own, for two loops of a line each.
pub fn check(image: &[u8]) -> Result<Checked, Refusal>
    ensures { numbered result ≡ checked_of (loads image.now) }
{
    if image.len() > IMAGE_LIMIT {
        return Err(Refusal::ImageTooLong);
    }
    let mut c = Counts::first();
    while c.at < image.len() {
        c = next_inst(image, c)?;
    }
    finish(c)
}
