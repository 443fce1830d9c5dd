// Nothing runs here: the words that every definition is written with stand in specs/.

#![tactic(auto)]
