// That records which are not metered keep every figure is a theorem: nothing runs here.
#![tactic(auto)]
