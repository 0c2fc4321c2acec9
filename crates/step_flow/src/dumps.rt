// IDMP and FDMP.
ghost use Rattle.std.specs.Prelude.{◌≡◌, ◌||◌, eqb};
ghost use Rattle.machine.specs.Step as definition;
ghost use Rattle.step_core.specs.Parts.{OnStack};

use machine::{STACK_LIMIT, Trap};
use step_core::{Executed, Tested, trap};

fn is_stream(stream: u64) -> bool
    ensures { result ≡ (eqb stream 1 || eqb stream 2) }
{
    matches!(stream, 1 | 2)
}

pub fn dump(at: Tested, stack: &[u64; STACK_LIMIT], stream: u64) -> Executed
    ensures { OnStack (definition.dump stream) at.regs stack.now result stack.now }
{
    let height = at.regs.height;
    if height == 0 {
        return trap(at.regs, height, Trap::StackUnderflow);
    }
    if !is_stream(stream) {
        return trap(at.regs, height, Trap::NoSuchStream);
    }
    Executed::Dump(at.next(height), stack[height - 1])
}
