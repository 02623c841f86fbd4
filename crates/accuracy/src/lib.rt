// Demand 3 is a definition in specs/ and a theorem in proofs/: nothing runs here.
#![tactic(auto)]
