// The calls of a host, from Rust or C: load, run, encode and the room for it over lent bytes, as docs/HOST.md lays them out.
// None has a `requires`: each is right for slices of any length and contents, at any address.
#![tactic(auto)]

ghost use Rattle.std.specs.Prelude.{◌≡◌};
ghost use Rattle.mm_host.specs.Calls.{loaded_numbers, encoded_numbers, load_call, run_call, encode_call, size_call};
ghost use Rattle.encoder.specs.Encoder.{means};

use c_answers::Ran;
use encoder::{EncodeError, encoded_size, to_binary};
use loader::{Accepted, Refusal, fresh, from_binary};
use machine::{CALL_LIMIT, MEMORY_SIZE, STACK_LIMIT};
use machine_bytes::{
    MACHINE_SIZE, flags_of, halted_of, read_arrays, registers_of, write_machine, write_parts,
};
use quick::Reached;
use run::execute_parts;
use step_core::Arrays;

// What is lent is no machine; a number of our own. A number as all that these calls answer, since they cross to C.
const NO_MACHINE: u64 = 50;

const NOT_RUN: Ran = Ran {
    ending: NO_MACHINE,
    steps: 0,
    dumped: 0,
};

const NOT_LOADED: Loaded = Loaded {
    number: NO_MACHINE,
    count: 0,
};

// The answer of a load: 0 and the count of instructions, or a number and 0. A C struct with a number, since an enum doesn't
// cross to C. Encoded has the same shape and is a type of its own, as the header has both, mm_loaded and mm_encoded.
#[repr(C)]
#[derive(Clone, Copy)]
pub struct Loaded {
    pub number: u64,
    pub count: u64,
}

impl From<Result<Accepted, Refusal>> for Loaded {
    ghost from_gives = { λ r a. a ≡ loaded_numbers r };

    fn from(answer: Result<Accepted, Refusal>) -> Loaded {
        match answer {
            Ok(accepted) => Loaded {
                number: 0,
                count: accepted.count as u64,
            },
            Err(refusal) => Loaded {
                number: u64::from(u8::from(refusal)),
                count: 0,
            },
        }
    }
}

// The answer of encode and of the room for it: 0 and the size, or a number and 0. A C struct as Loaded is.
#[repr(C)]
#[derive(Clone, Copy)]
pub struct Encoded {
    pub number: u64,
    pub size: u64,
}

impl From<Result<usize, EncodeError>> for Encoded {
    ghost from_gives = { λ r a. a ≡ encoded_numbers (means r) };

    #[tactic(auto, unfolding(crate::specs::Calls::encoded_numbers, encoder::specs::Encoder::means))]
    fn from(answer: Result<usize, EncodeError>) -> Encoded {
        match answer {
            Ok(size) => Encoded {
                number: 0,
                size: size as u64,
            },
            Err(error) => Encoded {
                number: u64::from(u8::from(error)),
                size: 0,
            },
        }
    }
}

// The archive's only caller of from_binary.
pub fn mm_load(image: &[u8], insts: &mut [u8], labels: &mut [u8], machine: &mut [u8]) -> Loaded
    ensures { load_call image.now insts.old labels.old machine.old ≡ record { number = result.number; count = result.count; insts = insts.new; labels = labels.new; machine = machine.new } }
{
    let Some(bytes) = machine.as_mut_array::<MACHINE_SIZE>() else {
        return NOT_LOADED;
    };
    let answer = from_binary(image, insts, labels);
    if let Ok(accepted) = answer {
        write_machine(&fresh(accepted.ip), bytes);
    }
    Loaded::from(answer)
}

// The machine's arrays are copied once in and once out: by value they would be copied four times. The archive's only caller of
// execute_parts: a second one would cost its speed.
pub fn mm_run(
    image: &[u8],
    insts: &[u8],
    labels: &[u8],
    count: u64,
    machine: &mut [u8],
    limit: u64,
    dumps: &mut [u8],
) -> Ran
    ensures { run_call image.now insts.now labels.now count machine.old limit dumps.old ≡ record { ending = result.ending; steps = result.steps; dumped = result.dumped; machine = machine.new; dumps = dumps.new } }
{
    let Some(bytes) = machine.as_mut_array::<MACHINE_SIZE>() else {
        return NOT_RUN;
    };
    let Some(halted) = halted_of(bytes) else {
        return NOT_RUN;
    };
    let arrays = &mut Arrays {
        stack: [0; STACK_LIMIT],
        calls: [0; CALL_LIMIT],
        memory: [0; MEMORY_SIZE],
    };
    read_arrays(bytes, arrays);
    let from = Reached {
        regs: registers_of(bytes),
        left: limit,
        flags: flags_of(bytes),
    };
    let count = count as usize;
    let outcome = execute_parts(image, insts, labels, count, from, halted, arrays, dumps);
    let at = outcome.at;
    write_parts(at.regs, at.flags, outcome.is_halted(), arrays, bytes);
    Ran::new(outcome.ending, outcome.steps(limit), outcome.dumped)
}

pub fn mm_encode(image: &[u8], insts: &[u8], count: u64, out: &mut [u8]) -> Encoded
    ensures { encode_call image.now insts.now count out.old ≡ record { number = result.number; size = result.size; out = out.new } }
{
    Encoded::from(to_binary(image, insts, count as usize, out))
}

// The size that mm_encode needs and then answers, without writing.
pub fn mm_encoded_size(image: &[u8], insts: &[u8], count: u64) -> Encoded
    ensures { result ≡ size_call image.now insts.now count }
{
    Encoded::from(encoded_size(image, insts, count as usize))
}
