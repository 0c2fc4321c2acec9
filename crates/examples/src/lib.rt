// Examples computed from the definitions of document 01 and of requests a and b of document 02, in proofs/. No code.
#![tactic(auto)]
