// PUSH, POP, INC, DEC, SWAP, DUP, BOT.
ghost use Rattle.std.specs.Prelude.{ℕ};
ghost use Rattle.machine.specs.Step as definition;
ghost use Rattle.step_core.specs.Parts.{OnRegisters, OnStack};
ghost use Rattle.step_stack.specs.Functions.{Computes};

use machine::{STACK_LIMIT, Trap};
use step_core::{Executed, Tested, onward, trap};

pub fn push(at: Tested, stack: &mut [u64; STACK_LIMIT], cell: u64) -> Executed
    ensures { OnStack (definition.push cell) at.regs stack.old result stack.new }
{
    let height = at.regs.height;
    if height < STACK_LIMIT {
        stack[height] = cell;
        onward(at.regs, height + 1)
    } else {
        trap(at.regs, height, Trap::StackOverflow)
    }
}

pub fn pop(at: Tested) -> Executed
    ensures { OnRegisters definition.pop at.regs result }
{
    let height = at.regs.height;
    if 0 < height {
        onward(at.regs, height - 1)
    } else {
        trap(at.regs, height, Trap::StackUnderflow)
    }
}

// INC and DEC: the top becomes what `f` makes of it.
pub fn adjust<F: Fn(u64) -> u64>(at: Tested, stack: &mut [u64; STACK_LIMIT], f: F) -> Executed
    requires { F.IsAlwaysCallable f }
    ensures { (g : ℕ → ℕ) → Computes g (F.post f) → OnStack (definition.adjust g) at.regs stack.old result stack.new }
{
    let height = at.regs.height;
    if 0 < height {
        let top = height - 1;
        stack[top] = f(stack[top]);
        onward(at.regs, height)
    } else {
        trap(at.regs, height, Trap::StackUnderflow)
    }
}

// A depth is a whole u64: it is compared before it becomes an index.
pub fn swap(at: Tested, stack: &mut [u64; STACK_LIMIT], depth: u64) -> Executed
    ensures { OnStack (definition.swap depth) at.regs stack.old result stack.new }
{
    let height = at.regs.height;
    if depth < height as u64 {
        stack.swap(height - 1 - depth as usize, height - 1);
        onward(at.regs, height)
    } else {
        trap(at.regs, height, Trap::StackUnderflow)
    }
}

pub fn dup(at: Tested, stack: &mut [u64; STACK_LIMIT], depth: u64) -> Executed
    ensures { OnStack (definition.dup depth) at.regs stack.old result stack.new }
{
    let height = at.regs.height;
    if depth < height as u64 {
        let copied = stack[height - 1 - depth as usize];
        push(at, stack, copied)
    } else {
        trap(at.regs, height, Trap::StackUnderflow)
    }
}

pub fn bot(at: Tested, stack: &mut [u64; STACK_LIMIT]) -> Executed
    ensures { OnStack definition.bot at.regs stack.old result stack.new }
{
    let height = at.regs.height;
    if 0 < height {
        let bottom = stack[0];
        push(at, stack, bottom)
    } else {
        trap(at.regs, height, Trap::StackUnderflow)
    }
}
