// The rules of document 01, on meanings: definitions and proofs alone, no code.
#![tactic(auto)]
