// What holds on every station that calls reach, and of every answer of a take.
#![tactic(auto)]
