// What `pick` prints for an input: theory alone, in specs/.
#![tactic(auto)]
