// Nothing runs here: what the array of a stack means stands in specs/, for the crates that have one.

#![tactic(auto)]
