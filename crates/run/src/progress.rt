// How far a run has come, and how it is left.
ghost use Rattle.std.specs.Prelude.{◌≡◌, ◌-◌, ◌<◌};
ghost use Rattle.machine.specs.Ending.{ending_of};
ghost use Rattle.run.specs.Turns.{is_halted};

use machine::Ending;
use quick::Reached;
use step_core::Registers;

// Behind a step that counts, which left these registers.
pub fn behind(at: Reached, regs: Registers) -> Reached
    requires { 0 < at.left }
    ensures { result ≡ record { regs = regs; left = at.left - 1; flags = at.flags } }
{
    Reached {
        regs,
        left: at.left - 1,
        ..at
    }
}

// A run that is over: how far it has come, and the cells that it dumped.
#[derive(Clone, Copy)]
pub struct Outcome {
    pub at: Reached,
    pub dumped: usize,
    pub ending: Ending,
}

impl Outcome {
    // The machine is halted after it.
    pub fn is_halted(self) -> bool
        ensures { result ≡ is_halted (ending_of self.ending) }
    {
        self.ending == Ending::Halted
    }

    // The steps that it took of as many as this. An outcome that no run with the limit left may have more left than that: none.
    pub fn steps(self, limit: u64) -> u64
        ensures { result ≡ limit - self.at.left }
    {
        limit.saturating_sub(self.at.left)
    }
}

// A run that goes on when a name was looked up: this one.
#[derive(Clone, Copy)]
pub struct Asking<'a> {
    pub at: Reached,
    pub name: &'a [u8],
}
