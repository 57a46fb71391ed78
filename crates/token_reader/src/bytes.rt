ghost use Rattle.std.specs.Prelude.{◌≡◌, ◌≤◌, ℕ, List, Option, drop, length, take, IfErr, OnOk};
ghost use Rattle.sources.specs.Leaving.{Takes};
ghost use Rattle.token_reader.specs.AtHand.{HasFront};

use thiserror::Error;

/// Why a reader gives no more bytes.
#[derive(Clone, Copy, Debug, PartialEq, Eq, Drop, Error)]
pub enum ReadRefusal {
    /// The text has more than 2^40 bytes.
    #[error("the text has more than 2^40 bytes")]
    Long,
    /// The source failed.
    #[error("the source failed")]
    Failed,
    /// Memory ran out.
    #[error("memory ran out")]
    Memory,
}

/// Bytes that are looked at before they are taken. `left` is the bytes that are left, or `None` where they are not told,
/// and `front` is those at hand. `moves` says that one state may come to be another by calls, and `causes` what the cause
/// of a refusal is between two states.
pub trait Bytes {
    ghost use Rattle.token_reader.specs.declared.bytes.ReadRefusal.{ReadRefusal};
    ghost use Rattle.token_reader.specs.declared.bytes.ReadRefusal.TheVariants.{Memory as NoMemory};

    ghost left: { Self → Option (List ℕ) };

    ghost front: { Self → List ℕ };

    ghost moves: { Self → Self → Type 0 };

    ghost causes: { Self → Self → ReadRefusal → Type 0 };

    /// Has so many bytes at hand, at most 1024, or all that are left where they are fewer.
    ///
    /// # Errors
    /// `Long` only where the text has more than 2^40 bytes, `Failed` only where the source failed.
    fn want(&mut self, count: usize) -> Result<(), ReadRefusal>
        requires { count ≤ 1024 }
        ensures left { left self.new ≡ left self.old }
        ensures front { OnOk result (HasFront count (front self.new) (left self.new)) }
        ensures moved { moves self.old self.new }
        ensures cause { IfErr result (causes self.old self.new) };

    /// The bytes at hand.
    fn peek(&self) -> &[u8]
        ensures { result.now ≡ front self.now };

    /// Takes so many of the bytes at hand.
    fn skip(&mut self, count: usize)
        requires { count ≤ length (front self.old) }
        ensures left { Takes (left self.old) (left self.new) (take count (front self.old)) }
        ensures moved { moves self.old self.new };

    ghost moves_refl: { (bytes : Self) → moves bytes bytes };

    ghost moves_trans: { (first second third : Self) → moves first second → moves second third → moves first third };

    ghost later_cause: { (first second third : Self) (refusal : ReadRefusal) → moves first second → moves second third
        → causes second third refusal → causes first third refusal };

    ghost memory_free: { (first second : Self) → causes first second NoMemory };
}
