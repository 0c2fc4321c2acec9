// CMP, the jump and the conditional jumps.
ghost use Rattle.machine.specs.Step as definition;
ghost use Rattle.flag.specs.Flags.{is_set};
ghost use Rattle.flag.specs.Jumps.{jump_of};
ghost use Rattle.step_core.specs.Parts.{OnRegisters, OnStack};
ghost use Rattle.step_flow.specs.Asked.{found_if_asked};

use flag::Flag;
use machine::{STACK_LIMIT, Trap};
use step_core::{Executed, LookupError, Tested, moved, onward, trap};

pub fn compare(at: Tested, stack: &[u64; STACK_LIMIT]) -> Executed
    ensures { OnStack definition.compare at.regs stack.now result stack.now }
{
    let height = at.regs.height;
    if height < 2 {
        return trap(at.regs, height, Trap::StackUnderflow);
    }
    let last = height - 1;
    let b = nan::as_u64(stack[last]);
    let a = nan::as_u64(stack[last - 1]);
    Executed::Compared(at.next(last), flag::cmp(a, b))
}

pub fn jump(at: Tested, found: Option<Result<usize, LookupError>>) -> Executed
    ensures { OnRegisters (definition.jump (found_if_asked found)) at.regs result }
{
    let Some(found) = found else {
        return Executed::Ill;
    };
    match found {
        Ok(target) => moved(at.regs, target),
        Err(LookupError::NoLabel) => Executed::Trap(at.regs, Trap::NoSuchLabel),
        Err(LookupError::IllChain) => Executed::Ill,
    }
}

// The jump that tests the flag. The label is looked up before the flag: `found` comes first, and without it this is the jump.
pub fn jump_if(
    at: Tested,
    flags: u8,
    condition: Flag,
    found: Option<Result<usize, LookupError>>,
) -> Executed
    ensures { OnRegisters (definition.jump_if (is_set flags (jump_of condition)) (found_if_asked found)) at.regs result }
{
    let Some(answer) = found else {
        return jump(at, found);
    };
    match answer {
        Ok(_) if !flag::is_set(flags, condition) => onward(at.regs, at.regs.height),
        _ => jump(at, found),
    }
}
