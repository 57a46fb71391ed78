ghost use Rattle.std.specs.Prelude.{◌+◌, ◌≡◌, ◌<◌, ◌≤◌, ◌^◌, [], IfOk, IfErr, false, length, refl, true};
ghost use Rattle.std.proofs.Common.{◌∙◌, arith};
ghost use Rattle.sources.specs.Leaving.{IsAtEnd};
ghost use Rattle.token_reader.specs.AtHand.{behind, whole};
ghost use Rattle.token_reader.specs.Refusals.{cause-later, IsCause};

use crate::buffer::Buffer;
use crate::bytes::{Bytes, ReadRefusal};
use ports::Memory;
use sources::Source;
use std::alloc::Global;

/// The most bytes that a text may have.
const LIMIT: u64 = 1 << 40;

/// Reads a source through a buffer, a text of at most 2^40 bytes. What is left is what stands in the buffer, and then what
/// is left of the source. One state may come to be another where the rest of the source is the same, its count of faults
/// has not fallen, and the whole text is as long.
#[derive(Drop)]
pub struct Reader<S: Source> {
    source: S,
    buffer: Buffer,
    read: u64,
    ghost few: { read ≤ 2 ^ 40 + 65536 },
}

impl<S: Source + Drop> Reader<S> {
    /// A reader of a source.
    ///
    /// # Errors
    /// `Memory` where there is no room for the buffer.
    pub fn open(alloc: Global, source: S) -> Result<Reader<S>, Memory>
        ensures source { IfOk result (λ reader. reader.source ≡ source) }
        ensures buffer { IfOk result (λ reader. reader.buffer ≡ []) }
        ensures read { IfOk result (λ reader. reader.read ≡ 0) }
    {
        Ok(Reader {
            source,
            buffer: Buffer::new(alloc)?,
            read: 0,
        })
    }
}

impl<S: Source> Reader<S> {
    /// Reads more bytes behind those at hand, and answers whether there were any.
    fn refill(&mut self) -> Result<bool, ReadRefusal>
        requires { length self.old.buffer < 1024 }
        ensures more { IfOk result (λ more. more ≡ true → length self.old.buffer < length self.new.buffer) }
        ensures end { IfOk result (λ more. more ≡ false → IsAtEnd (S.left self.new.source)) }
        ensures left { behind self.new.buffer (S.left self.new.source) ≡ behind self.old.buffer (S.left self.old.source) }
        ensures rest { S.same_rest self.old.source self.new.source }
        ensures kept { S.faults self.old.source ≤ S.faults self.new.source }
        ensures whole { whole self.new.read (S.left self.new.source) ≡ whole self.old.read (S.left self.old.source) }
        ensures cause { IfErr result (IsCause (S.faults self.old.source) (S.faults self.new.source) (whole self.old.read (S.left self.old.source))) }
    {
        if self.read > LIMIT {
            return Err(ReadRefusal::Long);
        }
        match self.buffer.fill(&mut self.source) {
            Ok(count) => {
                self.read += count as u64;
                Ok(count > 0)
            }
            Err(_) => Err(ReadRefusal::Failed),
        }
    }
}

impl<S: Source> Bytes for Reader<S> {
    ghost left = { λ r. behind r.buffer (S.left r.source) };

    ghost front = { λ r. r.buffer };

    ghost moves = { λ r s. S.same_rest r.source s.source × (S.faults r.source ≤ S.faults s.source)
        × (whole s.read (S.left s.source) ≡ whole r.read (S.left r.source)) };

    ghost causes = { λ r s refusal. IsCause (S.faults r.source) (S.faults s.source) (whole r.read (S.left r.source)) refusal };

    ghost moves_refl = { λ r. (S.rest_refl r.source, Prim.omega arith, refl) };

    ghost moves_trans = { λ r s t p q. (S.rest_trans r.source s.source t.source p.0 q.0, Prim.omega (arith, p.1, q.1), q.2 ∙ p.2) };

    ghost later_cause = { λ r s t refusal p q cause. cause-later _ _ _ _ _ refusal p.1 q.1 p.2 cause };

    ghost memory_free = { λ r s. tt };

    fn want(&mut self, count: usize) -> Result<(), ReadRefusal> {
        while self.buffer.as_slice().len() < count {
            if !self.refill()? {
                return Ok(());
            }
        }
        Ok(())
    }

    fn peek(&self) -> &[u8] {
        self.buffer.as_slice()
    }

    fn skip(&mut self, count: usize) {
        self.buffer.skip(count);
    }
}
