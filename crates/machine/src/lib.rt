// The machine's types. Document 01's definitions over them stand in specs/, the theorems in proofs/.
#![tactic(auto)]

ghost use Rattle.std.specs.Prelude.{◌≡◌};
ghost use Rattle.machine.specs.Ending.{ending_number, ending_of};
ghost use Rattle.machine.specs.Theorems.{Theorems};
ghost use Rattle.machine.specs.Traps.{trap_number};

// The most cells and return addresses, and the bytes of the memory.
pub const STACK_LIMIT: usize = 1024;

pub const CALL_LIMIT: usize = 1024;

pub const MEMORY_SIZE: usize = 1024;

// One machine. The data stack is the first `height` cells of `stack`, the call stack the first `call_height` addresses of
// `calls`. Heights stand beside whole arrays, field by field as in the definitions: it crosses to C in this layout, its memory
// is fixed, and the slots above a height are part of it, which keep what was popped.
#[repr(C)]
#[derive(Clone, Copy)]
pub struct Machine {
    pub stack: [u64; STACK_LIMIT],
    pub height: usize,
    pub calls: [u64; CALL_LIMIT],
    pub call_height: usize,
    pub memory: [u8; MEMORY_SIZE],
    pub flags: u8,
    pub ip: usize,
    pub halted: bool,
}

// A label's definition: its name's place in the image, its target and the next record of the chain.
#[repr(C)]
#[derive(Clone, Copy)]
pub struct Label {
    pub start: u64,
    pub len: u64,
    pub target: u64,
    pub next: u64,
}

// How a run ends. A full buffer and an ill state count no step.
#[derive(Clone, Copy, PartialEq, Eq)]
pub enum Ending {
    Halted,
    Limit,
    // The instruction at the pointer trapped.
    Trap(Trap),
    // It would dump a cell, and the buffer is full.
    BufferFull,
    // It can't be taken: what document 01 lists under 34.
    IllState,
}

// As a host sees it.
impl From<Ending> for u64 {
    ghost from_gives = { λ ending number. number ≡ ending_number (ending_of ending) };

    #[tactic(auto, unfolding(crate::specs::Ending::ending_number))]
    fn from(ending: Ending) -> u64 {
        match ending {
            Ending::Halted => 0,
            Ending::Limit => 1,
            Ending::Trap(trap) => u64::from(u8::from(trap)),
            Ending::BufferFull => 33,
            Ending::IllState => 34,
        }
    }
}

// Why an instruction couldn't do its work, each with its number.
#[derive(Clone, Copy, PartialEq, Eq)]
pub enum Trap {
    StackUnderflow = 20,
    StackOverflow = 21,
    NoOpenCall = 22,
    CallStackFull = 23,
    DivisionByZero = 24,
    AddressPastMemory = 25,
    NoSuchLabel = 26,
    NoSuchFunction = 27,
    WrongType = 28,
    NegativeConversion = 29,
    NotBothI64 = 30,
    UnknownType = 31,
    NoSuchStream = 32,
}

impl From<Trap> for u8 {
    ghost from_gives = { λ trap number. number ≡ trap_number trap };

    fn from(trap: Trap) -> u8 {
        trap as u8
    }
}

// No code: its contract states the theorems on the definitions.
pub fn machine_theorems()
    ensures { Theorems }
{}
