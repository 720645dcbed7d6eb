// What a call on bytes sees of what it is lent, and that the step on local copies of that is the step. There is no code here.
#![tactic(auto)]
