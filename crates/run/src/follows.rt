// What follows one step of a run.
ghost use Rattle.std.specs.Prelude.{◌≡◌, ◌<◌};
ghost use Rattle.step_core.specs.Parts.{Small};
ghost use Rattle.run.specs.Turns.{Follows};

use crate::dumps::Dumps;
use crate::progress::{Outcome, behind};
use machine::Ending;
use quick::Reached;
use std::ops::ControlFlow;
use step_core::Executed;

// What an executed step comes to for a run that was at `at`: it goes on behind the step, or is over. An ill state and a full
// buffer count no step and change nothing, a trap counts and ends the run.
pub fn follow(answer: Executed, at: Reached, dumps: &mut Dumps<'_>) -> ControlFlow<Outcome, Reached>
    requires { (0 < at.left) × Small answer }
    ensures same_buffer { dumps.new.buffer.ghost_name ≡ dumps.old.buffer.ghost_name }
    ensures follows { Follows answer at dumps.old.filled dumps.old.buffer.now dumps.new.filled dumps.new.buffer.now result }
{
    match answer {
        Executed::Next(regs) => ControlFlow::Continue(behind(at, regs)),
        Executed::Compared(regs, flags) => ControlFlow::Continue(Reached {
            flags,
            ..behind(at, regs)
        }),
        Executed::Dump(regs, cell) => match dumps.push(cell) {
            None => ControlFlow::Break(dumps.ends(at, Ending::BufferFull)),
            Some(()) => ControlFlow::Continue(behind(at, regs)),
        },
        Executed::Halt(regs) => ControlFlow::Break(dumps.ends(behind(at, regs), Ending::Halted)),
        Executed::Trap(regs, trap) => {
            ControlFlow::Break(dumps.ends(behind(at, regs), Ending::Trap(trap)))
        }
        Executed::Ill => ControlFlow::Break(dumps.ends(at, Ending::IllState)),
    }
}
