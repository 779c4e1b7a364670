// The way of trying a case: calls and what they hand back, over the definitions. No code.
#![tactic(auto)]
