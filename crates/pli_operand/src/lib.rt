// What expressions come to, and their conversion to the kinds that their places want.
#![tactic(auto)]

pub mod notes;
pub mod operand;
pub mod shape;
pub mod stored;
pub mod value;
pub mod wanted;
