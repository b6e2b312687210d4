// The variables and procedures of a program, in tables that are made once from its scopes.
#![tactic(auto)]

mod amount;
mod block_table;
mod extent;
mod home;
mod kind;
mod leaf;
mod leaves;
mod meant;
mod members;
mod order;
mod parameter;
mod procedure;
mod refer;
mod shape;
mod shaping;
mod tables;
mod variable;

/// What is asked of a declared variable with its members, and of a procedure's head.
pub mod declared {
    pub use crate::amount::check_of;
    pub use crate::extent::{WrittenCheck, WrittenExtent, written_extents};
    pub use crate::kind::area_name;
    pub use crate::procedure::returns_in;
    pub use crate::refer::refer_of;
}

pub use shape::Shape;
pub use tables::Tables;
