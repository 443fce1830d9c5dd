// Nothing runs here: what the records of modes 3 to 5 have in common with those of modes 0 to 2 is said and proved (proofs/Theorem.antt).

#![tactic(auto)]
