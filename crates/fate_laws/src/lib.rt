// Laws of fates: series of actions at one column, what they say about the one-lamp walk, and the ending of a run by them. There is no code
// here.
#![tactic(auto)]
