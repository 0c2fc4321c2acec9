// How the answer of a run crosses to a host, from mm_host and from label_run: a C struct of numbers, an ending as its number.
#![tactic(auto)]

ghost use Rattle.std.specs.Prelude.{◌≡◌};
ghost use Rattle.machine.specs.Ending.{ending_number, ending_of};

use machine::Ending;

#[repr(C)]
#[derive(Clone, Copy)]
pub struct Ran {
    pub ending: u64,
    pub steps: u64,
    pub dumped: u64,
}

impl Ran {
    // By its three values, and no From: the steps are those of an outcome and a limit, so that one would be from a pair.
    pub fn new(ending: Ending, steps: u64, dumped: usize) -> Ran
        ensures { result ≡ record { ending = ending_number (ending_of ending); steps = steps; dumped = dumped } }
    {
        Ran {
            ending: u64::from(ending),
            steps,
            dumped: dumped as u64,
        }
    }
}
