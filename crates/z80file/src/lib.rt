// The two directions together: what is written reads back, what is read can be written, and the table P1 to P12.
// Definitions and theorems alone: there is no function here.
#![tactic(auto)]
