//! The pieces of a line: words and numbers.

ghost use Rattle.std.specs.Fmt.{signed_decimal};

use crate::text::Text;
use line_text::put_number;
use ports::{Failed, Sink, put_all};

/// A piece of a line.
#[derive(Clone, Copy, Debug)]
pub enum Piece<'a> {
    /// Bytes as they stand.
    Bytes(&'a [u8]),
    /// A number, in decimal digits.
    Number(i128),
}

impl Text for Piece<'_> {
    ghost use Rattle.sequence_text.specs.Pieces.{piece_text};

    ghost text = { piece_text };

    fn put<S: Sink>(&self, out: &mut S) -> Result<(), Failed> {
        match self {
            Piece::Bytes(bytes) => put_all(out, bytes),
            Piece::Number(number) => put_number(out, *number),
        }
    }
}
