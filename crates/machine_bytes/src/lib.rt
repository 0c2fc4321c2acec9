// A machine as bytes, as a host lends it: tested, read into arrays and numbers, and written from them.
// What reads and writes is lent bytes as long as a machine, by their type.
#![tactic(auto)]

ghost use Rattle.std.specs.Prelude.{◌≡◌, ◌+◌, ◌*◌, ◌≤◌, cond, Some, None, [], ◌∷◌, ◌++◌, length};
ghost use Rattle.std.proofs.lemmas.List.Edits.{sets};
ghost use Rattle.tables.specs.Tables.{numbers_in, bytes_of};
ghost use Rattle.step_core.specs.Parts.{height_of_calls, of_parts};
ghost use Rattle.machine_bytes.specs.Layout.{height_at, is_machine, machine_of, machine_bytes, Crosses};
ghost use Rattle.step_core.specs.Parts.{registers_of};

use machine::{CALL_LIMIT, MEMORY_SIZE, Machine, STACK_LIMIT};
use step_core::{Arrays, Registers};
use tables::{NUMBER, number_at};
use word::{put_word, word_at};

// Where each field begins, and the length of all.
const STACK: usize = 0;

const CALLS: usize = STACK_LIMIT * NUMBER;

const MEMORY: usize = CALLS + CALL_LIMIT * NUMBER;

const HEIGHT: usize = MEMORY + MEMORY_SIZE;

const CALL_HEIGHT: usize = HEIGHT + NUMBER;

const IP: usize = CALL_HEIGHT + NUMBER;

const FLAGS: usize = IP + NUMBER;

const HALTED: usize = FLAGS + 1;

pub const MACHINE_SIZE: usize = HALTED + 1;

// Bytes as long as a machine.
pub type MachineBytes = [u8; MACHINE_SIZE];

// The numbers of bytes: one copy, once compiled. Here and in the next one the other slice is read or written by the index: of a
// `zip` over `iter_mut`, and of `as_chunks_mut`, the library says how long the slice is afterwards, and not what is in it.
fn read_numbers(from: &[u8], to: &mut [u64])
    requires { length from.now ≡ length to.old * 8 }
    ensures { to.new ≡ numbers_in from.now }
{
    for (i, x) in to.iter_mut().enumerate() {
        *x = number_at(from, i);
    }
}

// The bytes of numbers, from `at` on: one copy, once compiled.
fn write_numbers(from: &[u64], at: usize, to: &mut [u8])
    requires { at + length from.now * 8 ≤ length to.old }
    ensures { to.new ≡ sets to.old at (bytes_of from.now) }
{
    for (i, x) in from.iter().enumerate() {
        put_word(to, at + i * NUMBER, *x);
    }
}

// A machine's arrays.
pub fn read_arrays(machine: &MachineBytes, arrays: &mut Arrays)
    ensures { (arrays.new.stack ≡ (machine_of machine.now).stack) × (arrays.new.calls ≡ (machine_of machine.now).calls) × (arrays.new.memory ≡ (machine_of machine.now).memory) }
{
    read_numbers(&machine[STACK..CALLS], &mut arrays.stack);
    read_numbers(&machine[CALLS..MEMORY], &mut arrays.calls);
    arrays.memory.copy_from_slice(&machine[MEMORY..HEIGHT]);
}

// Its numbers that a run carries. These three are functions by name, and no From: MachineBytes is another name of an array,
// from which we can't give a From to a number that isn't ours either, nor tell flags from halted by their types.
pub fn registers_of(machine: &MachineBytes) -> Registers
    ensures { result ≡ registers_of (machine_of machine.now) }
{
    Registers {
        ip: word_at(machine, IP) as usize,
        height: word_at(machine, HEIGHT) as usize,
        call_height: word_at(machine, CALL_HEIGHT) as usize,
    }
}

#[tactic(auto, unfolding(crate::specs::Layout::machine_of))]
pub fn flags_of(machine: &MachineBytes) -> u8
    ensures { result ≡ (machine_of machine.now).flags }
{
    machine[FLAGS]
}

// Whether it is halted; None where its byte for that is neither 0 nor 1: the bytes are no machine's.
pub fn halted_of(machine: &MachineBytes) -> Option<bool>
    ensures { result ≡ cond (is_machine machine.now) (Some (machine_of machine.now).halted) None }
{
    match machine[HALTED] {
        0 => Some(false),
        1 => Some(true),
        _ => None,
    }
}

// The arrays, into the bytes before the height, which they fill.
fn write_arrays(
    stack: &[u64; STACK_LIMIT],
    calls: &[u64; CALL_LIMIT],
    memory: &[u8; MEMORY_SIZE],
    machine: &mut MachineBytes,
)
    ensures machine_after { machine.new ≡ sets machine.old 0 (bytes_of stack.now ++ bytes_of calls.now ++ memory.now) }
    ensures memory_len { length (bytes_of stack.now ++ bytes_of calls.now ++ memory.now) ≡ height_at }
{
    write_numbers(stack, STACK, machine);
    write_numbers(calls, CALLS, machine);
    machine[MEMORY..HEIGHT].copy_from_slice(memory);
}

// The numbers, flags and halted, into the bytes from the height on.
fn write_registers(regs: Registers, flags: u8, halted: bool, machine: &mut MachineBytes)
    ensures { machine.new ≡ sets machine.old height_at (bytes_of (regs.height ∷ height_of_calls regs ∷ regs.ip ∷ []) ++ (flags ∷ cond halted 1 0 ∷ [])) }
{
    put_word(machine, HEIGHT, regs.height as u64);
    put_word(machine, CALL_HEIGHT, regs.call_height as u64);
    put_word(machine, IP, regs.ip as u64);
    machine[FLAGS] = flags;
    machine[HALTED] = u8::from(halted);
}

// The machine of these parts, in every byte. Flags and halted come beside the registers, as a run has them: it carries no
// halted while it goes on. Registers and flags aren't one struct: quick has it (Reached), which this crate has no need of, and
// with the steps that are left, of which no byte tells.
pub fn write_parts(
    regs: Registers,
    flags: u8,
    halted: bool,
    arrays: &Arrays,
    machine: &mut MachineBytes,
)
    ensures { machine.new ≡ machine_bytes (of_parts regs flags arrays.now.stack arrays.now.calls arrays.now.memory halted) }
{
    write_arrays(&arrays.stack, &arrays.calls, &arrays.memory, machine);
    write_registers(regs, flags, halted, machine);
}

pub fn write_machine(m: &Machine, machine: &mut MachineBytes)
    ensures { machine.new ≡ machine_bytes m.now }
{
    write_arrays(&m.stack, &m.calls, &m.memory, machine);
    write_registers(Registers::from(m), m.flags, m.halted, machine);
}

// No code: its contract states that a machine crosses and comes back.
pub fn machine_crosses()
    ensures { Crosses }
{}
