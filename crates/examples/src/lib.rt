// Document 01's starred examples, and one of request P5: the list and its theorem, with no code.
#![tactic(auto)]
