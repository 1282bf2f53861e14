// Numbers of a port, as wide as their fields. There is no code here.
#![tactic(auto)]
