// The theorems of the history text, over what the reader and the writer promise. No function is here.

#![tactic(auto)]
