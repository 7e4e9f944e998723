// No code: which of two requests has looser windows, in specs/Windows.antt, and the proof that their searches never cost more for it.
#![tactic(auto)]
