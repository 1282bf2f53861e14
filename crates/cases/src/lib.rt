// The lettered cases of document 01, and cases of a serial and of a ping, are theorems about the definitions: see specs/LetteredCases.antt, specs/SerialCases.antt and specs/PingCases.antt.
#![tactic(auto)]
