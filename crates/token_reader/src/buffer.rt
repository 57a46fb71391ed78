ghost use Rattle.std.specs.Prelude.{◌++◌, ◌+◌, ◌<◌, ◌≡◌, ◌≤◌, [], drop, IfOk, IfErr, length, MatchResult, OnErr, take};
ghost use Rattle.ports.specs.Faults.{HasCause};
ghost use Rattle.sources.specs.Leaving.{EndsOnly, Takes, TakesSome, IsAtEnd};
ghost use Rattle.token_reader.specs.AtHand.{Gains};

use ports::{Failed, Memory};
use sources::Source;
use std::alloc::Global;
use std::marker::Model;

/// How many bytes are read at a time, at most.
const ROOM: usize = 65536;

/// Bytes that were read and not yet taken.
#[derive(Debug, Drop)]
pub(crate) struct Buffer {
    bytes: Vec<u8>,
    from: usize,
    to: usize,
}

impl Model for Buffer {
    ghost use Rattle.std.specs.Prelude.{List, ℕ, drop, take};
    ghost use Rattle.token_reader.specs.AtHand.{IsWindow};

    ghost Value = { List ℕ };

    ghost view = { λ buffer. drop buffer.from (take buffer.to buffer.bytes.items) };

    ghost invariant = { λ buffer. IsWindow buffer.bytes.items buffer.from buffer.to };
}

/// Moves so many bytes to the front, and reads behind them.
fn read_behind<S: Source>(
    source: &mut S,
    bytes: &mut [u8],
    from: usize,
    kept: usize,
) -> Result<usize, Failed>
    requires part { from + kept ≤ length bytes.old }
    requires room { kept < length bytes.old }
    ensures front { take kept bytes.new ≡ take kept (drop from bytes.old) }
    ensures len { length bytes.new ≡ length bytes.old }
    ensures bound { IfOk result (λ n. kept + n ≤ length bytes.new) }
    ensures taken { TakesSome (S.left source.old) (S.left source.new) result (drop kept bytes.new) }
    ensures end { IfOk result (λ n. n ≡ 0 → IsAtEnd (S.left source.old)) }
    ensures cause { HasCause (S.faults source.old) (S.faults source.new) result }
    ensures rest { S.same_rest source.old source.new }
{
    bytes.rotate_left(from);
    source.read(&mut bytes[kept..])
}

impl Buffer {
    /// No bytes.
    pub(crate) fn new(alloc: Global) -> Result<Buffer, Memory>
        ensures { IfOk result (λ buffer. buffer ≡ []) }
    {
        let bytes = vec![in alloc; 0; ROOM].map_err(|_| Memory)?;
        Ok(Buffer {
            bytes,
            from: 0,
            to: 0,
        })
    }

    /// All of them.
    pub(crate) fn as_slice(&self) -> &[u8]
        ensures { result.now ≡ self.now }
    {
        &self.bytes[self.from..self.to]
    }

    /// Takes so many of them.
    pub(crate) fn skip(&mut self, count: usize)
        requires { count ≤ length self.old }
        ensures { self.new ≡ drop count self.old }
    {
        self.from += count;
    }

    /// Reads more of them, where they are fewer than 1024, and answers how many: 0 only at the source's end.
    pub(crate) fn fill<S: Source>(&mut self, source: &mut S) -> Result<usize, Failed>
        requires { length self.old < 1024 }
        ensures few { IfOk result (λ n. n ≤ 65536) }
        ensures gained { IfOk result (Gains self.old self.new (S.left source.old) (S.left source.new)) }
        ensures same { OnErr result (self.new ≡ self.old) }
        ensures failed { OnErr result (Takes (S.left source.old) (S.left source.new) []) }
        ensures end { IfOk result (λ n. n ≡ 0 → IsAtEnd (S.left source.old)) }
        ensures cause { HasCause (S.faults source.old) (S.faults source.new) result }
        ensures rest { S.same_rest source.old source.new }
    {
        let kept = self.to - self.from;
        let result = read_behind(source, &mut self.bytes, self.from, kept);
        self.from = 0;
        self.to = kept;
        let count = result?;
        self.to += count;
        Ok(count)
    }
}
