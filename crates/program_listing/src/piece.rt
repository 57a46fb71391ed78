//! The pieces of a line: words, names and numbers.

use crate::printable::put_detail;
use line_text::put_number;
use ports::{Failed, Sink, put_all};
use sequence_text::Text;

/// A piece of a line.
#[derive(Clone, Copy, Debug)]
pub enum Piece<'a> {
    /// Bytes as they stand.
    Word(&'a [u8]),
    /// Bytes of a name.
    Name(&'a [u8]),
    /// A number, in decimal digits.
    Number(i128),
}

impl Text for Piece<'_> {
    ghost use Rattle.program_listing.specs.Pieces.{piece_text};

    ghost text = { piece_text };

    fn put<S: Sink>(&self, out: &mut S) -> Result<(), Failed> {
        match self {
            Piece::Word(bytes) => put_all(out, bytes),
            Piece::Name(bytes) => put_detail(out, bytes),
            Piece::Number(number) => put_number(out, *number),
        }
    }
}
