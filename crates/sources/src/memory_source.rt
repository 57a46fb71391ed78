ghost use Rattle.std.specs.Prelude.{◌≡◌, ◌≤◌, IfOk, Some, drop, length, refl, vec_len};
ghost use Rattle.ports.specs.Reading.{ReadsPrefix};

use crate::Source;
use crate::numbered_calls::NumberedCalls;
use ports::{Failed, Memory};
use std::alloc::Global;

/// Bytes that lie in memory. Its reads are numbered from 0, and those listed fail. It tells its bytes.
#[derive(Debug, Drop)]
pub struct MemorySource {
    bytes: Vec<u8>,
    place: usize,
    calls: NumberedCalls,
    faults: u64,
    ghost within: { place ≤ vec_len bytes },
}

impl MemorySource {
    /// A source of these bytes. The reads whose numbers are in `failing` will fail.
    ///
    /// # Errors
    /// `Memory` where there is no room for the bytes.
    pub fn open(alloc: Global, bytes: &[u8], failing: Vec<u64>) -> Result<MemorySource, Memory>
        ensures left { IfOk result (λ source. ⟦<MemorySource as Source>⟧.left source ≡ Some bytes.now) }
        ensures faults { IfOk result (λ source. ⟦<MemorySource as Source>⟧.faults source ≡ 0) }
    {
        let mut held = Vec::new(alloc);
        held.extend_from_slice(bytes).map_err(|_| Memory)?;
        Ok(MemorySource {
            bytes: held,
            place: 0,
            calls: NumberedCalls::new(failing),
            faults: 0,
        })
    }
}

impl Source for MemorySource {
    ghost left = { λ source. Some (drop source.place source.bytes.items) };

    ghost faults = { λ source. source.faults };

    ghost same_rest = { λ old new. new.bytes.items ≡ old.bytes.items };

    ghost rest_refl = { λ source. refl };

    ghost rest_trans = { λ first second third p q. Prim.cc };

    fn read(&mut self, buf: &mut [u8]) -> Result<usize, Failed> {
        if self.calls.next_fails() {
            self.faults = self.faults.saturating_add(1);
            return Err(Failed);
        }
        let count = copy_from(&self.bytes, self.place, buf);
        self.place += count;
        Ok(count)
    }
}

/// Copies what bytes have from a place on to the front of a buffer, and answers how many.
fn copy_from(bytes: &[u8], place: usize, buf: &mut [u8]) -> usize
    requires { place ≤ length bytes.now }
    ensures bound { result ≤ length buf.new }
    ensures bytes { ReadsPrefix (drop place bytes.now) result buf.new }
{
    let left = &bytes[place..];
    let count = left.len().min(buf.len());
    buf[..count].copy_from_slice(&left[..count]);
    count
}
