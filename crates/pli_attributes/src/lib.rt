// The declarations: what stands behind DECLARE, and the attributes of RETURNS.
#![tactic(auto)]

mod attribute;
mod extent;
mod initial;
mod item;
mod word;

pub use attribute::attributes;
pub use item::declare_items;
