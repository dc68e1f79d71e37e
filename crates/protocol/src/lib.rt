// No code: the definitions of the comparison that the code of `compare` is proved against, and the theorems about them.
#![tactic(auto)]
