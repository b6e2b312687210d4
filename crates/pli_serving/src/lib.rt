// What the 41 services of images do, as definitions.
#![tactic(auto)]
