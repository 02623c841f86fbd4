// What passes a point, and how near it stays to the exact flow, are definitions in specs/ and theorems in proofs/: nothing runs here.
#![tactic(auto)]
