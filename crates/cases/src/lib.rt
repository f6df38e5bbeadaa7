// RULES.md's worked cases P1 to P8, S1 to S3 and M1 to M3, as one list under one claim: specs/Cases.antt states
// them on the definitions that the contracts cite, and proofs/Cases.antt proves them. There is no code here.
#![tactic(auto)]
