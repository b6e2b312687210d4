// Worked programs whose images run in the checker.
#![tactic(auto)]
