// Demand 2 for SCS files: what is written reads back as far as SCS keeps it, and what is read can be written. Definitions and theorems alone.
#![tactic(auto)]
