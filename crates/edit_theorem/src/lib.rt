// Nothing runs here: the edit theorem, that re-reading after an edit gives what a whole reading gives, stands in proofs/.

#![tactic(auto)]
