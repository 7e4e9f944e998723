// No code: the figures to reproduce, in specs/Figures.antt, and the proof that the promises give them.
#![tactic(auto)]
