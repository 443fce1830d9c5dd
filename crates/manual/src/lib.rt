// No code: the examples of docs/DEFINITION.md and document 01's table, computed from the definitions (proofs/).

#![tactic(auto)]
