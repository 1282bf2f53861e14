// Every store is the text of a station that calls reach: specs/Written.antt. There is no code here.
#![tactic(auto)]
