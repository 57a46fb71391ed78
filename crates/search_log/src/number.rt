//! Numbers of clauses, which may pass 2^64.

ghost use Rattle.std.specs.Prelude.{◌<◌, ◌^◌};
ghost use Rattle.ports.specs.Faults.{HasCause};
ghost use Rattle.ports.specs.Growth.{PutsAll};
ghost use Rattle.texts.specs.SevenBits.{seven_bits};

use ports::{Failed, Sink, put_all};
use texts::{Spelling, put_seven_bits};

/// Puts a number below 2^70 in groups of seven bits. Where it failed, a prefix of its bytes was put.
///
/// # Errors
/// `Failed` only where the sink's count of faults rose.
pub fn put_number<S: Sink>(out: &mut S, number: u128) -> Result<(), Failed>
    requires { number < 2 ^ 70 }
    ensures bytes { PutsAll (S.held out.old) (S.held out.new) result (seven_bits number) }
    ensures cause { HasCause (S.faults out.old) (S.faults out.new) result }
    ensures rest { S.same_rest out.old out.new }
{
    if number < 1 << 64 {
        return put_seven_bits(out, number as u64);
    }
    put_all(out, &[128 + (number % 128) as u8])?;
    put_seven_bits(out, (number / 128) as u64)
}

/// Numbers of clauses, in groups of seven bits.
#[derive(Clone, Copy, Debug, PartialEq, Eq, Drop)]
pub struct ClauseNumber;

impl Spelling<u128> for ClauseNumber {
    ghost use Rattle.std.specs.Prelude.{◌<◌, ◌^◌};
    ghost use Rattle.texts.specs.SevenBits.{seven_bits};

    ghost text = { λ _ number. seven_bits number };

    ghost fits = { λ _ number. number < 2 ^ 70 };

    fn put<S: Sink>(&self, out: &mut S, item: &u128) -> Result<(), Failed> {
        put_number(out, *item)
    }
}
