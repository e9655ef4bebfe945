// Laws of the calls over a memory that was kept, which have their gate, the two ends and what stands between in common.
#![tactic(auto)]
