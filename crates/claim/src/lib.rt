// Demand 3: the paper bench, the claim over every list of calls, and the empty versions refuted. Definitions and theorems; the code is journal's.
#![tactic(auto)]
