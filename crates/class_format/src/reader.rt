//! The fields of a class file, read from the front.

ghost use Rattle.std.specs.Prelude.{◌≡◌, ◌+◌, ◌^◌, ◌<◌, length, All};
ghost use Rattle.class_format.specs.Input.{Gives, number_from, bytes_from};

use crate::fault::TRUNCATED;
use crate::refusal::FormatRefusal;
use byteorder::{BigEndian, ByteOrder};
use std::marker::Model;

/// The bytes of a file, of which those from `place` on are left. Contracts see the place and what is left.
#[derive(Drop)]
pub struct Reader<'a> {
    bytes: &'a [u8],
    place: usize,
}

impl<'a> Model for Reader<'a> {
    ghost use Rattle.std.specs.Prelude.{◌≤◌, ◌<◌, length, drop, All};
    ghost use Rattle.class_format.specs.Input.{Input};

    ghost Value = { Input };

    ghost view = { λ reader. record { place = reader.place; bytes = drop reader.place reader.bytes.now } };

    ghost invariant = { λ reader. (reader.place ≤ length reader.bytes.now) × All (λ b. b < 256) reader.bytes.now };
}

impl<'a> Reader<'a> {
    /// The whole of a file.
    pub fn new(bytes: &'a [u8]) -> Reader<'a>
        ensures place { result.place ≡ 0 }
        ensures bytes { result.bytes ≡ bytes.now }
    {
        Reader { bytes, place: 0 }
    }

    /// The place of the next byte.
    pub fn place(&self) -> u64
        ensures value { result ≡ self.now.place }
        ensures small { self.now.place + length self.now.bytes < 2 ^ 63 }
        ensures bytes { All (λ b. b < 256) self.now.bytes }
    {
        self.place as u64
    }

    /// How many bytes are left.
    pub fn left(&self) -> usize
        ensures { result ≡ length self.now.bytes }
    {
        self.bytes.len() - self.place
    }

    /// The next bytes, as many as asked for.
    pub fn take(&mut self, count: usize) -> Result<&'a [u8], FormatRefusal>
        ensures { Gives (λ bytes. (bytes.now, self.new)) result (bytes_from count self.old) }
    {
        if self.left() < count {
            return Err(FormatRefusal::Refused {
                kind: TRUNCATED,
                place: self.bytes.len() as u64,
            });
        }
        let start = self.place;
        self.place = start + count;
        Ok(&self.bytes[start..start + count])
    }

    /// A number of one byte.
    pub fn u1(&mut self) -> Result<u8, FormatRefusal>
        ensures { Gives (λ n. (n, self.new)) result (number_from 1 self.old) }
    {
        let bytes = self.take(1)?;
        Ok(bytes[0])
    }

    /// A number of two bytes, the highest first.
    pub fn u2(&mut self) -> Result<u16, FormatRefusal>
        ensures { Gives (λ n. (n, self.new)) result (number_from 2 self.old) }
    {
        let bytes = self.take(2)?;
        Ok(BigEndian::read_u16(bytes))
    }

    /// A number of four bytes, the highest first.
    pub fn u4(&mut self) -> Result<u32, FormatRefusal>
        ensures { Gives (λ n. (n, self.new)) result (number_from 4 self.old) }
    {
        let bytes = self.take(4)?;
        Ok(BigEndian::read_u32(bytes))
    }
}
