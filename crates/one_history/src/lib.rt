// Demand 3 of the code. No behaviour of its own: `load`, `run`, `run_records`, `host_load` and `host_run` hold the statements' hypotheses to the calls.
#![tactic(auto)]

ghost use Rattle.inst.specs.Records.{Bytes};
ghost use Rattle.loader.specs.Loading.{FromBinary};
ghost use Rattle.label_run.specs.Runs as records;
ghost use Rattle.run.specs.Runs.{ExecuteProgram};
ghost use Rattle.std.specs.Prelude.{◌≡◌};
ghost use Rattle.mm_host.specs.Calls.{load_call};
ghost use Rattle.one_history.specs.Calls.{CallTheorems};
ghost use Rattle.one_history.specs.Host as host;
ghost use Rattle.one_history.specs.Host.{HostTheorems};

use c_answers::Ran as HostRan;
use loader::{Accepted, Refusal};
use machine::{Label, Machine};
use mm_host::Loaded;
use run::Ran;

// A call of from_binary gives what the statement asks of the load.
pub fn load(image: &[u8], insts: &mut [u8], labels: &mut [u8]) -> Result<Accepted, Refusal>
    ensures from_binary { FromBinary image.now insts.old labels.old result insts.new labels.new }
    ensures bytes { Bytes image.now }
{
    loader::from_binary(image, insts, labels)
}

// A call of execute_program gives what it asks of a run.
pub fn run(
    image: &[u8],
    insts: &[u8],
    labels: &[u8],
    count: usize,
    m: Machine,
    limit: u64,
    dumps: &mut [u8],
) -> Ran
    ensures { ExecuteProgram image.now insts.now labels.now count m limit dumps.old result dumps.new }
{
    run::execute_program(image, insts, labels, count, m, limit, dumps)
}

// The same over label records. They are two functions, since each holds one statement's hypothesis to a call, and the two
// statements are over tables of different types.
pub fn run_records(
    image: &[u8],
    insts: &[u8],
    labels: &[Label],
    count: usize,
    m: Machine,
    limit: u64,
    dumps: &mut [u8],
) -> Ran
    ensures { records.ExecuteProgram image.now insts.now labels.now count m limit dumps.old result dumps.new }
{
    run::execute_program(image, insts, labels, count, m, limit, dumps)
}

// No code: its contract states demand 3 of any list of such calls.
pub fn call_theorems()
    ensures { CallTheorems }
{}

// A call of mm_load gives what the statement of a host's calls asks of the load.
pub fn host_load(image: &[u8], insts: &mut [u8], labels: &mut [u8], machine: &mut [u8]) -> Loaded
    ensures machine_value { load_call image.now insts.old labels.old machine.old ≡ record { number = result.number; count = result.count; insts = insts.new; labels = labels.new; machine = machine.new } }
    ensures bytes { Bytes image.now }
{
    mm_host::mm_load(image, insts, labels, machine)
}

// A call of mm_run gives what it asks of a run.
pub fn host_run(
    image: &[u8],
    insts: &[u8],
    labels: &[u8],
    count: u64,
    machine: &mut [u8],
    limit: u64,
    dumps: &mut [u8],
) -> HostRan
    ensures { host.Ran image.now insts.now labels.now count machine.old (record { limit = limit; lent = dumps.old; ending = result.ending; steps = result.steps; dumped = result.dumped; machine = machine.new; left = dumps.new }) }
{
    mm_host::mm_run(image, insts, labels, count, machine, limit, dumps)
}

// No code: its contract states demand 3 of the calls that a host makes.
pub fn host_theorems()
    ensures { HostTheorems }
{}
