// Laws of replaying a log: where the executions that give it can be, entry by entry. There is no code here.
#![tactic(auto)]
