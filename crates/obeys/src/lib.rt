// That the desk obeys the rules: definitions and proofs alone, no code.
#![tactic(auto)]
