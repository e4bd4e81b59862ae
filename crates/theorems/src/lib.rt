// Theorems about calls and runs. There is no code here.
#![tactic(auto)]
