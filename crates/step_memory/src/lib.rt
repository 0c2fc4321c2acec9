// READ and WRITE of each width.
#![tactic(auto)]

ghost use Rattle.machine.specs.Step as definition;
ghost use Rattle.step_core.specs.Parts.{OnBoth};

use machine::{MEMORY_SIZE, STACK_LIMIT, Trap};
use step_core::{Executed, Tested, onward, trap};

// READ of each width reads one byte.
pub fn read(at: Tested, stack: &mut [u64; STACK_LIMIT], memory: &[u8; MEMORY_SIZE]) -> Executed
    ensures { OnBoth definition.read at.regs stack.old memory.now result stack.new memory.now }
{
    let height = at.regs.height;
    if height == 0 {
        return trap(at.regs, height, Trap::StackUnderflow);
    }
    let top = height - 1;
    let Some(byte) = memory.get(nan::as_u64(stack[top]) as usize) else {
        return trap(at.regs, top, Trap::AddressPastMemory);
    };
    stack[top] = nan::from_u64(u64::from(*byte));
    onward(at.regs, height)
}

// WRITE of each width writes one byte.
pub fn write(at: Tested, stack: &[u64; STACK_LIMIT], memory: &mut [u8; MEMORY_SIZE]) -> Executed
    ensures { OnBoth definition.write at.regs stack.now memory.old result stack.now memory.new }
{
    let height = at.regs.height;
    if height < 2 {
        return trap(at.regs, height, Trap::StackUnderflow);
    }
    let last = height - 1;
    let address = nan::as_u64(stack[last - 1]) as usize;
    let value = nan::as_u64(stack[last]);
    // Tested, then written by its index: a byte lent by `get_mut` would leave only the memory's length known.
    if MEMORY_SIZE <= address {
        return trap(at.regs, height - 2, Trap::AddressPastMemory);
    }
    // A cast has to fit, so the remainder that the definition names is taken before it.
    memory[address] = (value % 256) as u8;
    onward(at.regs, height - 2)
}
