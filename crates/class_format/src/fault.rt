//! The kinds of faults (docs/PROFILE.md, "Refusals of class files").

ghost use Rattle.std.specs.Prelude.{◌≡◌};
ghost use Rattle.class_format.specs.Input.{Gives, demand};

use crate::refusal::FormatRefusal;

/// A field of the layout passes the end.
pub const TRUNCATED: u8 = 1;
/// The magic number differs.
pub const MAGIC: u8 = 2;
/// The version isn't 49.0.
pub const VERSION: u8 = 3;
/// A tag is none of a pool entry, or a long or a double has no second number left.
pub const POOL_TAG: u8 = 4;
/// An index names no entry of the tag that its place asks for, or the pool's count is 0.
pub const POOL_INDEX: u8 = 5;
/// A Code attribute's length isn't that of its parts, or it stands where none is allowed.
pub const ATTRIBUTE_LENGTH: u8 = 6;
/// The number of instruction bytes is 0 or above 65535.
pub const CODE_LENGTH: u8 = 7;
/// Bytes follow the layout.
pub const TRAILING: u8 = 8;

/// A fault of this kind at this place, unless the test holds.
pub fn demand(holds: bool, kind: u8, place: u64) -> Result<(), FormatRefusal>
    ensures { Gives (λ _. tt) result (demand holds kind place) }
{
    if holds {
        Ok(())
    } else {
        Err(FormatRefusal::Refused { kind, place })
    }
}
