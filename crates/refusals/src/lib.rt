// No code: laws of the numbers by which files and tables are refused.
#![tactic(auto)]
