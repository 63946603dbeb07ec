// Document 01 as definitions (specs/) and the theorems over them (proofs/): nothing to run.
#![tactic(auto)]
