//! A file read to its end, or to a limit.

ghost use Rattle.std.specs.Prelude.{◌≡◌, ◌≤◌, ◌+◌, length, take, IfErr, IfOk, IfSome};
ghost use Rattle.ports.specs.Growth.{SameContents};
ghost use Rattle.class_files.specs.SoFar.{IsUnreadFile};
ghost use Rattle.class_files.specs.Pieces.{AddsPiece};

use crate::file_refusal::FileRefusal;
use ports::{Failed, Files};
use std::alloc::Global;

/// How many bytes are read at once.
const PIECE: usize = 4096;

/// Reads a piece of a file behind the bytes that were read, at most `room` bytes of it, and answers how many; 0 only at the end.
fn read_piece<F: Files>(
    files: &mut F,
    name: &str,
    bytes: &mut Vec<u8>,
    room: usize,
) -> Result<usize, FileRefusal>
    ensures count { IfOk result (λ count. (count ≤ room) × (length bytes.new.items ≡ length bytes.old.items + count)) }
    ensures bytes { IfOk result (λ count. IfSome (F.content files.old name.now) (AddsPiece bytes.old.items bytes.new.items room count)) }
    ensures cause { IfErr result (IsUnreadFile (F.read_faults files.old) (F.read_faults files.new)) }
    ensures contents { SameContents (F.content files.old) (F.content files.new) }
    ensures kept { F.read_faults files.old ≤ F.read_faults files.new }
    ensures writes { F.write_faults files.new ≡ F.write_faults files.old }
{
    let mut piece = [0; PIECE];
    let room = PIECE.min(room);
    match files.read_at(name, bytes.len() as u64, &mut piece[..room]) {
        Ok(count) => {
            bytes
                .extend_from_slice(&piece[..count])
                .map_err(|_| FileRefusal::Memory)?;
            Ok(count)
        }
        Err(Failed) => Err(FileRefusal::ReadFault),
    }
}

/// The first `limit` bytes of a file, or all of them where it has fewer.
pub(crate) fn read_whole<F: Files>(
    alloc: Global,
    files: &mut F,
    name: &str,
    limit: usize,
) -> Result<Vec<u8>, FileRefusal>
    ensures bytes { IfOk result (λ bytes. IfSome (F.content files.old name.now) (λ content. bytes.items ≡ take limit content)) }
    ensures cause { IfErr result (IsUnreadFile (F.read_faults files.old) (F.read_faults files.new)) }
    ensures contents { SameContents (F.content files.old) (F.content files.new) }
    ensures kept { F.read_faults files.old ≤ F.read_faults files.new }
    ensures writes { F.write_faults files.new ≡ F.write_faults files.old }
{
    let mut bytes = Vec::new(alloc);
    while bytes.len() < limit {
        let room = limit - bytes.len();
        let count = read_piece(files, name, &mut bytes, room)?;
        if count == 0 {
            break;
        }
    }
    Ok(bytes)
}
