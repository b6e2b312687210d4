// The code of the whole language, as definitions.
#![tactic(auto)]
