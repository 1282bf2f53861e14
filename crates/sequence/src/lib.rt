// Sequences of calls on the station.
#![tactic(auto)]
