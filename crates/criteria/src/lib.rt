// The definitions that a reviewer must believe, and what is true of them. No function is here.

#![tactic(auto)]
