ghost use Rattle.std.specs.Prelude.{◌≡◌, ◌≤◌, [], IfOk, Some, vec_capacity, vec_len, refl};

use crate::numbered_calls::NumberedCalls;
use crate::{Failed, Memory, Sink};
use std::alloc::Global;

/// A sink of up to `room` bytes that lie in memory. Its puts are numbered from 0, and those listed fail, as does a put of
/// a piece that is not empty where no room is left. It tells its bytes.
#[derive(Debug, Drop)]
pub struct MemorySink {
    bytes: Vec<u8>,
    room: usize,
    calls: NumberedCalls,
    faults: u64,
    ghost reserved: { room ≤ vec_capacity bytes },
    ghost within: { vec_len bytes ≤ room },
}

impl MemorySink {
    /// A sink with no byte yet. The puts whose numbers are in `failing` will fail.
    ///
    /// # Errors
    /// `Memory` where the room cannot be reserved.
    pub fn open(alloc: Global, room: usize, failing: Vec<u64>) -> Result<MemorySink, Memory>
        ensures held { IfOk result (λ sink. ⟦<MemorySink as Sink>⟧.held sink ≡ Some []) }
        ensures faults { IfOk result (λ sink. ⟦<MemorySink as Sink>⟧.faults sink ≡ 0) }
    {
        let bytes = Vec::with_capacity(alloc, room).map_err(|_| Memory)?;
        Ok(MemorySink {
            bytes,
            room,
            calls: NumberedCalls::new(failing),
            faults: 0,
        })
    }

    /// The bytes that were put.
    pub fn bytes(&self) -> &[u8]
        ensures { ⟦<MemorySink as Sink>⟧.held self.now ≡ Some result.now }
    {
        self.bytes.as_slice()
    }
}

impl Sink for MemorySink {
    ghost held = { λ sink. Some sink.bytes.items };

    ghost faults = { λ sink. sink.faults };

    ghost same_rest = { λ old new. new.room ≡ old.room };

    ghost rest_refl = { λ sink. refl };

    ghost rest_trans = { λ first second third p q. Prim.cc };

    fn put(&mut self, bytes: &[u8]) -> Result<usize, Failed> {
        let free = self.room - self.bytes.len();
        if self.calls.next_fails() || (free == 0 && !bytes.is_empty()) {
            self.faults = self.faults.saturating_add(1);
            return Err(Failed);
        }
        let count = free.min(bytes.len());
        self.bytes.extend_from_slice(&bytes[..count]).unwrap();
        Ok(count)
    }
}
