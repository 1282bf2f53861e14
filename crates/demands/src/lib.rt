// The three demands, as one statement: specs/Demands.antt. There is no code here.
#![tactic(auto)]
