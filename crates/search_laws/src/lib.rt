// Laws of the search for a least failing line, over any graph of numbered nodes. There is no code here.
#![tactic(auto)]
