// Document 02, request c: each instruction's bytes begin in the encoder's output at the sum of the lengths before it. No behaviour of
// its own: `encode` and `host_encode` of crate rewritten hold the hypotheses on the calls to the calls.
#![tactic(auto)]

ghost use Rattle.offsets.specs.Offsets.{Theorems};

// No code: its contract states the theorems on the definitions, on to_binary and on a host's calls.
pub fn offset_theorems()
    ensures { Theorems }
{}
