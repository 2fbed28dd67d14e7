// The theorems of the certificate text, over what the reader promises. No function is here.

#![tactic(auto)]
