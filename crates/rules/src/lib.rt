// Laws alone: the rules of a call, one after the other, free of the order of their numbers.
#![tactic(auto)]
