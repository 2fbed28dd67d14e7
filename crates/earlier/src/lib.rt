// What the check was before a change, and where verdicts are as before. No function is here.

#![tactic(auto)]
