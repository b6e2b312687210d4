// Runs of images over the services of the whole language, as definitions.
#![tactic(auto)]
