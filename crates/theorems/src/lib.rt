// What we claim of the definitions that the contracts cite: corners, limits, reach, one answer. Theorems only; specs/ states them and proofs/ proves them.

#![tactic(auto)]
