//! Whether the instructions of a listing are reached.

ghost use Rattle.std.specs.Prelude.{◌≡◌, ◌<◌, ℕ, pos, true, Some, length, slice_get};
ghost use Rattle.opcodes.specs.Instructions.{Successor};
ghost use Rattle.typing.specs.Typing.{AllReached};

use opcodes::Listed;

/// Whether an instruction falls through to this place of the code.
fn falls_to(at: &Listed, pc: u32) -> bool
    ensures { result ≡ true → Successor at.now.pc at.now.instr (pos pc) }
{
    at.instr.falls_through() && u64::from(at.pc) + u64::from(at.instr.length()) == u64::from(pc)
}

/// Whether an instruction jumps to this place of the code.
fn jumps_to(at: &Listed, pc: u32) -> bool
    ensures { result ≡ true → Successor at.now.pc at.now.instr (pos pc) }
{
    match at.instr.jump() {
        Some(distance) => i64::from(at.pc) + i64::from(distance) == i64::from(pc),
        None => false,
    }
}

/// Whether this place of the code comes next behind an instruction.
fn comes_next(at: &Listed, pc: u32) -> bool
    ensures { result ≡ true → Successor at.now.pc at.now.instr (pos pc) }
{
    falls_to(at, pc) || jumps_to(at, pc)
}

/// Whether the instruction at a place of a listing comes behind one that stands before it.
fn is_led_to(listing: &[Listed], place: usize) -> bool
    requires { place < length listing.now }
    ensures { result ≡ true → (from : ℕ) × (at : Listed) × (to : Listed) × (from < place) × (slice_get listing.now from ≡ Some at) × (slice_get listing.now place ≡ Some to) × Successor at.pc at.instr (pos to.pc) }
{
    for from in 0..place {
        if comes_next(&listing[from], listing[place].pc) {
            return true;
        }
    }
    false
}

/// Whether the first instruction, if any, stands at the start of the code.
fn starts(listing: &[Listed]) -> bool
    ensures { result ≡ true → (l : Listed) → slice_get listing.now 0 ≡ Some l → l.pc ≡ 0 }
{
    match listing.get(0) {
        Some(first) => first.pc == 0,
        None => true,
    }
}

/// Whether the first instruction stands at the start of the code, and each other one comes behind one that stands before it.
pub fn is_reached(listing: &[Listed]) -> bool
    ensures { result ≡ true → AllReached listing.now }
{
    if !starts(listing) {
        return false;
    }
    for place in 1..listing.len() {
        if !is_led_to(listing, place) {
            return false;
        }
    }
    true
}
