// The repeating flow is in specs/, its laws are there and in proofs/: nothing runs here.
#![tactic(auto)]
