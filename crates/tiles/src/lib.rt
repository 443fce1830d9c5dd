// Nothing runs here: what a reading's notes stand for and what lies between its records (specs/), and why (proofs/).

#![tactic(auto)]
