// Document 02, request b: the length of a rewritten image. No behaviour of its own: `encode`, `room`, `host_encode` and `host_room`
// hold the statements' hypotheses, and those of crate offsets, to the calls; `load` and `host_load` of one_history do that for the loads.
#![tactic(auto)]

ghost use Rattle.std.specs.Prelude.{◌≡◌};
ghost use Rattle.mm_host.specs.Calls.{encode_call, size_call};
ghost use Rattle.rewritten.specs.Rewritten.{Theorems};
ghost use Rattle.encoder.specs.Encoder.{ToBinary, EncodedSize};
ghost use Rattle.rewritten.specs.Calls.{CallsAreRewritten};
ghost use Rattle.rewritten.specs.Host.{HostTheorems};

use encoder::EncodeError;
use mm_host::Encoded;

// No code: its contract states the theorems on the definitions.
pub fn rewritten_theorems()
    ensures { Theorems }
{}

// A call of to_binary gives what the statement of the calls asks of an encoding.
pub fn encode(
    image: &[u8],
    insts: &[u8],
    count: usize,
    out: &mut [u8],
) -> Result<usize, EncodeError>
    ensures { ToBinary image.now insts.now count out.old result out.new }
{
    encoder::to_binary(image, insts, count, out)
}

// A call of encoded_size gives what it asks of the room.
pub fn room(image: &[u8], insts: &[u8], count: usize) -> Result<usize, EncodeError>
    ensures { EncodedSize image.now insts.now count result }
{
    encoder::encoded_size(image, insts, count)
}

// No code: its contract states the theorem on a load, an encoding, a load and an encoding.
pub fn call_theorems()
    ensures { CallsAreRewritten }
{}

// A call of mm_encode gives what the statement of a host's calls asks of an encoding.
pub fn host_encode(image: &[u8], insts: &[u8], count: u64, out: &mut [u8]) -> Encoded
    ensures { encode_call image.now insts.now count out.old ≡ record { number = result.number; size = result.size; out = out.new } }
{
    mm_host::mm_encode(image, insts, count, out)
}

// A call of mm_encoded_size gives what it asks of the room.
pub fn host_room(image: &[u8], insts: &[u8], count: u64) -> Encoded
    ensures { result ≡ size_call image.now insts.now count }
{
    mm_host::mm_encoded_size(image, insts, count)
}

// No code: its contract states the theorem on the calls that a host makes.
pub fn host_theorems()
    ensures { HostTheorems }
{}
