// No code: definitions and laws on lists and tests that every layer above uses.
#![tactic(auto)]
