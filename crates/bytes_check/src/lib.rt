//! The check of refutations in bytes, item by item.
#![tactic(auto)]

mod clause;
mod deletion;
mod item;
mod rule;
mod text;

pub use item::check_item;
pub use text::check_bytes;
