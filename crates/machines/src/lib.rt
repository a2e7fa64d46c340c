// What a table of steps is made of, and that it runs as the language: theory alone, in specs/.
#![tactic(auto)]
