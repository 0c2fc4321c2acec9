// What the instructions of execute_instruction share: the machine's numbers, and what an instruction comes to. The
// stacks and the memory are lent beside them.
#![tactic(auto)]

ghost use Rattle.std.specs.Prelude.{◌≡◌, ◌+◌, ◌<◌, ◌^◌};
ghost use Rattle.step_core.specs.declared.Executed.TheVariants.{Next};
ghost use Rattle.step_core.specs.Parts.{Inside, registers_of};

use machine::{CALL_LIMIT, MEMORY_SIZE, Machine, STACK_LIMIT, Trap};

// The numbers that nearly every step changes. All fields have eight bytes: a u8 among them would leave seven bytes of
// padding, which the compiler then copies through memory at each step (2.2 instead of 1.6 ns a step). So the flags
// are a number beside the registers.
#[derive(Clone, Copy)]
pub struct Registers {
    pub ip: usize,
    pub height: usize,
    pub call_height: usize,
}

// A machine's pointer and heights.
impl<'a> From<&'a Machine> for Registers {
    ghost from_gives = { λ m regs. regs ≡ registers_of m.now };

    fn from(machine: &'a Machine) -> Registers {
        Registers {
            ip: machine.ip,
            height: machine.height,
            call_height: machine.call_height,
        }
    }
}

// The registers as an instruction takes them. There is no `new` that tests what the ghost fields state: the heights are
// within their limits from the run's beginning on, and the step has compared the pointer with the count, so that a further
// test would only cost at each instruction.
#[derive(Clone, Copy)]
pub struct Tested {
    pub regs: Registers,
    pub ghost heights: { Inside regs },
    pub ghost pointer: { regs.ip + 1 < 2 ^ 64 },
}

impl Tested {
    // The registers at the next instruction, with the height given.
    pub fn next(self, height: usize) -> Registers
        ensures { result ≡ record self.regs { ip = self.regs.ip + 1; height = height } }
    {
        Registers {
            ip: self.regs.ip + 1,
            height,
            ..self.regs
        }
    }
}

// A machine's arrays, as a run lends them. An instruction is lent those that it sees. Made by a literal where it stands,
// with public fields: a function that answered it would copy 17 KB.
#[derive(Drop)]
pub struct Arrays {
    pub stack: [u64; STACK_LIMIT],
    pub calls: [u64; CALL_LIMIT],
    pub memory: [u8; MEMORY_SIZE],
}

// Success, for CMP with its new flags; a cell to dump, and the machine after it; HALT; a trap with the machine that it
// leaves; 34, nothing changed.
#[derive(Clone, Copy)]
pub enum Executed {
    Next(Registers),
    Compared(Registers, u8),
    Dump(Registers, u64),
    Halt(Registers),
    Trap(Registers, Trap),
    Ill,
}

// Why the lookup of a name finds no target: there is no such label in the program, or the chain is one that 34 names.
#[derive(Clone, Copy, PartialEq, Eq, Debug)]
pub enum LookupError {
    NoLabel,
    IllChain,
}

// Success with the height given: the pointer goes to the next instruction. This and the next two are over plain registers,
// as the definitions of these names are over any machine: of a `Tested` they would ask for its heights too.
pub fn onward(regs: Registers, height: usize) -> Executed
    requires { regs.ip + 1 < 2 ^ 64 }
    ensures { result ≡ Next (record regs { ip = regs.ip + 1; height = height }) }
{
    Executed::Next(Registers {
        ip: regs.ip + 1,
        height,
        ..regs
    })
}

// Success with the pointer at `to`.
pub fn moved(regs: Registers, to: usize) -> Executed
    ensures { result ≡ Next (record regs { ip = to }) }
{
    Executed::Next(Registers { ip: to, ..regs })
}

// A trap, which leaves the height given. Each instruction tests the heights itself and in its definition's order: how many
// cells it needs, and how many of them a later trap leaves, are the instruction's own.
pub fn trap(regs: Registers, height: usize, cause: Trap) -> Executed
    ensures { result ≡ Executed.Trap (record regs { height = height }) cause }
{
    Executed::Trap(Registers { height, ..regs }, cause)
}
