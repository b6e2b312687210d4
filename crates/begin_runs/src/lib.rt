// BEGIN blocks among the statements of a procedure: they end at their end, by GOTO and by RETURN.
#![tactic(auto)]

pub mod laws;
