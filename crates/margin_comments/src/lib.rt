// Nothing runs here: that a comment line put in where a line starts moves records and changes nothing else is said (specs/) and proved (proofs/).

#![tactic(auto)]
