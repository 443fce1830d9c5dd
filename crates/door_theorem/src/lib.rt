// Nothing runs here: the edit theorem, said of the doors for C and Rust, stands in proofs/.

#![tactic(auto)]
