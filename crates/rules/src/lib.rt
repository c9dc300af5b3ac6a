// The rules of document 01, and what holds of every run under them: definitions and proofs alone, no code.
#![tactic(auto)]
