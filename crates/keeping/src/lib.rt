// A store is read back as it was written, and what a text is: specs/Keeping.antt and its neighbours. There is no code here.
#![tactic(auto)]
