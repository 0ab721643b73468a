// The third demand: what writer and receiver promise together, stated over the whole list of packets, with no code.
#![tactic(auto)]
