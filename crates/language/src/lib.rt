// Trees, their language, their automaton and the cut automaton: theory alone, in specs/.
#![tactic(auto)]
