//! Numbers as bytes, the highest byte first (JVMS 4).

ghost use Rattle.std.specs.Prelude.{◌≡◌, [], ◌∷◌, ◌++◌, OnOk};
ghost use Rattle.class_format.specs.ClassText.{u2, u4};

use class_format::ByteText;
use ports::Memory;

/// Adds a number of one byte.
pub fn put_u1(out: &mut ByteText, number: u8) -> Result<(), Memory>
    ensures { OnOk result (out.new ≡ out.old ++ number ∷ []) }
{
    out.push(number).map_err(|_| Memory)
}

/// Adds a number of two bytes.
#[tactic(auto, unfolding(class_format::specs::ClassText::u2))]
pub fn put_u2(out: &mut ByteText, number: u16) -> Result<(), Memory>
    ensures { OnOk result (out.new ≡ out.old ++ u2 number) }
{
    put_bytes(out, &number.to_be_bytes())
}

/// Adds a number of four bytes.
#[tactic(auto, unfolding(class_format::specs::ClassText::u4))]
pub fn put_u4(out: &mut ByteText, number: u32) -> Result<(), Memory>
    ensures { OnOk result (out.new ≡ out.old ++ u4 number) }
{
    put_bytes(out, &number.to_be_bytes())
}

/// Adds bytes as they stand.
pub fn put_bytes(out: &mut ByteText, bytes: &[u8]) -> Result<(), Memory>
    ensures { OnOk result (out.new ≡ out.old ++ bytes.now) }
{
    out.extend(bytes).map_err(|_| Memory)
}
