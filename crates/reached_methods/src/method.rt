//! A reached method.

use opcodes::Listing;
use program::{Items, MethodId};
use resolution::Target;

/// A method that is reached: its reached instructions by place, and in the same order what each of them names.
#[derive(Debug, Drop)]
pub struct ReachedMethod {
    pub id: MethodId,
    pub listing: Listing,
    pub targets: Items<Target>,
}
