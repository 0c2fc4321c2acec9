// IEEE 754's binary64 over whole numbers: the definitions and the theorems' statements stand in specs/, the proofs in proofs/.
#![tactic(auto)]

ghost use Rattle.binary64.specs.Theorems.{Theorems};

// No code: its contract states the theorems on rounding, the operations and the conversion of whole numbers.
pub fn rounding_theorems()
    ensures { Theorems }
{}
