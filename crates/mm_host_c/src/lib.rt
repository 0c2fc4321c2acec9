// The calls of mm_host under C's calling convention, in an archive that a host links, as docs/HOST.md and include/mm.h lay
// them out: a slice crosses as its address and its length. Each call is mm_host's, under its clause.
#![tactic(auto)]

ghost use Rattle.std.specs.Prelude.{◌≡◌};
ghost use Rattle.mm_host.specs.Calls.{load_call, run_call, encode_call, size_call};

use c_answers::Ran;
use mm_host::{Encoded, Loaded};

#[unsafe(no_mangle)]
pub extern "C" fn mm_load(
    image: &[u8],
    insts: &mut [u8],
    labels: &mut [u8],
    machine: &mut [u8],
) -> Loaded
    ensures { load_call image.now insts.old labels.old machine.old ≡ record { number = result.number; count = result.count; insts = insts.new; labels = labels.new; machine = machine.new } }
{
    mm_host::mm_load(image, insts, labels, machine)
}

#[unsafe(no_mangle)]
pub extern "C" fn mm_run(
    image: &[u8],
    insts: &[u8],
    labels: &[u8],
    count: u64,
    machine: &mut [u8],
    limit: u64,
    dumps: &mut [u8],
) -> Ran
    ensures { run_call image.now insts.now labels.now count machine.old limit dumps.old ≡ record { ending = result.ending; steps = result.steps; dumped = result.dumped; machine = machine.new; dumps = dumps.new } }
{
    mm_host::mm_run(image, insts, labels, count, machine, limit, dumps)
}

#[unsafe(no_mangle)]
pub extern "C" fn mm_encode(image: &[u8], insts: &[u8], count: u64, out: &mut [u8]) -> Encoded
    ensures { encode_call image.now insts.now count out.old ≡ record { number = result.number; size = result.size; out = out.new } }
{
    mm_host::mm_encode(image, insts, count, out)
}

#[unsafe(no_mangle)]
pub extern "C" fn mm_encoded_size(image: &[u8], insts: &[u8], count: u64) -> Encoded
    ensures { result ≡ size_call image.now insts.now count }
{
    mm_host::mm_encoded_size(image, insts, count)
}
