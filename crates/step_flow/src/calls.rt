// CALL and RET.
ghost use Rattle.machine.specs.Step as definition;
ghost use Rattle.step_core.specs.Parts.{OnCalls, OnCalling};
ghost use Rattle.step_flow.specs.Asked.{found_if_asked};

use machine::{CALL_LIMIT, Trap};
use step_core::{Executed, LookupError, Registers, Tested, moved};

// 27 leaves the address stacked and 34 changes nothing, so the two arms that stack it do so each. With 23 there is no
// lookup, so `found` isn't looked at.
pub fn call(
    at: Tested,
    calls: &mut [u64; CALL_LIMIT],
    found: Option<Result<usize, LookupError>>,
) -> Executed
    ensures { OnCalling (definition.call (found_if_asked found)) at.regs calls.old result calls.new }
{
    let call_height = at.regs.call_height;
    if CALL_LIMIT <= call_height {
        return Executed::Trap(at.regs, Trap::CallStackFull);
    }
    let stacked = Registers {
        call_height: call_height + 1,
        ..at.regs
    };
    let Some(found) = found else {
        return Executed::Ill;
    };
    match found {
        Ok(target) => {
            calls[call_height] = (at.regs.ip + 1) as u64;
            moved(stacked, target)
        }
        Err(LookupError::NoLabel) => {
            calls[call_height] = (at.regs.ip + 1) as u64;
            Executed::Trap(stacked, Trap::NoSuchFunction)
        }
        Err(LookupError::IllChain) => Executed::Ill,
    }
}

pub fn ret(at: Tested, calls: &[u64; CALL_LIMIT]) -> Executed
    ensures { OnCalls definition.ret at.regs calls.now result calls.now }
{
    let call_height = at.regs.call_height;
    if call_height == 0 {
        return Executed::Trap(at.regs, Trap::NoOpenCall);
    }
    let top = call_height - 1;
    Executed::Next(Registers {
        ip: calls[top] as usize,
        call_height: top,
        ..at.regs
    })
}
