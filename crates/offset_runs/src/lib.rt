//! OFFSET variables and OFFSET members of BASED structures: what they hold (`offsets_given`), comparisons and
//! assignments (`offsets_compared`, `offset_assigned`, `offset_kept`), the conversions of locators (`address_given`,
//! `pointer_from_offset`), and numbers that offsets lead to (`number_by_offset`).
#![tactic(auto)]

pub mod laws;
