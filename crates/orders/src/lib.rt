//! The orders on the actions of an execution (JLS 17.4.3 to 17.4.5, 17.4.8; docs/MODEL.md): program order, synchronization
//! order, synchronizes-with, happens-before, and the essential edges of synchronizes-with.
#![tactic(auto)]

mod answers;
mod channel;
mod channels;
mod flat;
mod lookups;
mod make;
mod numbers;
mod synced;
mod synchronized;
mod volatiles;

pub use answers::Orders;
pub use make::orders;
