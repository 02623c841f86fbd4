// The figures of the paper are theorems in specs/: nothing runs here.
#![tactic(auto)]
