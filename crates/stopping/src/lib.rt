// Stopping sets of a family of lines, and of the lines of a cube: definitions and laws with no bytes in them, and no code.
#![tactic(auto)]
