use crate::class_bytes::{EVERY, SMALL};
use class_format::*;
use std::alloc::{AllocError, Global};
use std::test::Fail;

// A list of each kind gives back what was pushed, and nothing past its end.
#[test]
fn lists(rt: HostRuntime) -> Result<(), Fail> {
    let mut name = ByteText::new(rt.alloc());
    name.push(b'M')?;
    assert_eq!(rt; name.get(0).copied(), Some(b'M'));
    assert_eq!(rt; name.get(1).copied(), None);
    let copy = ByteText::copied(rt.alloc(), name.as_slice())?;
    let mut pool = PoolEntries::new(rt.alloc());
    pool.push(PoolEntry::Utf8(copy))?;
    pool.push(PoolEntry::Class(1))?;
    assert_eq!(rt; pool.len(), 2);
    assert!(rt; matches!(pool.get(1), Some(PoolEntry::Class(1))));
    let mut interfaces = Indices::new(rt.alloc());
    interfaces.push(2)?;
    assert_eq!(rt; interfaces.get(0).copied(), Some(2));
    let more = Indices::copied(rt.alloc(), interfaces.as_slice())?;
    assert_eq!(rt; more.len() + name.len(), 2);
    Ok(())
}

/// The kind and the place of the refusal of bytes; none where they are read.
fn refusal(alloc: Global, bytes: &[u8]) -> Option<(u8, u64)> {
    match read_class(alloc, bytes) {
        Ok(_) => None,
        Err(FormatRefusal::Refused { kind, place }) => Some((kind, place)),
        Err(FormatRefusal::Memory) => Some((0, 0)),
    }
}

// The small class cut to each length is refused at the end.
#[test]
fn cut(rt: HostRuntime) {
    for len in 0..SMALL.len() {
        assert_eq!(rt; refusal(rt.alloc(), &SMALL[..len]), Some((1, len as u64)));
    }
    assert_eq!(rt; refusal(rt.alloc(), &SMALL), None);
}

/// The bytes of the small class with those from `place` on replaced.
fn spliced(alloc: Global, place: usize, removed: usize, new: &[u8]) -> Result<Vec<u8>, AllocError> {
    let mut bytes = Vec::new(alloc);
    for (at, byte) in SMALL.iter().enumerate() {
        if at == place {
            bytes.extend_from_slice(new)?;
        }
        if at < place || at - place >= removed {
            bytes.push(*byte)?;
        }
    }
    if place == SMALL.len() {
        bytes.extend_from_slice(new)?;
    }
    Ok(bytes)
}

/// An edit of the small class, and the refusal that comes of it.
struct Row {
    place: usize,
    removed: usize,
    new: &'static [u8],
    refusal: Option<(u8, u64)>,
}

const ROWS: [Row; 24] = [
    // The magic number; the minor and the major version.
    Row {
        place: 3,
        removed: 1,
        new: &[0xbf],
        refusal: Some((2, 0)),
    },
    Row {
        place: 5,
        removed: 1,
        new: &[1],
        refusal: Some((3, 4)),
    },
    Row {
        place: 7,
        removed: 1,
        new: &[0x32],
        refusal: Some((3, 4)),
    },
    // A pool count of 0; of 1, an empty pool, in which the class's index names nothing.
    Row {
        place: 9,
        removed: 1,
        new: &[0],
        refusal: Some((5, 8)),
    },
    Row {
        place: 8,
        removed: 202,
        new: &[0, 1],
        refusal: Some((5, 12)),
    },
    // Tags that there are not; a long as the last entry.
    Row {
        place: 14,
        removed: 1,
        new: &[2],
        refusal: Some((4, 14)),
    },
    Row {
        place: 14,
        removed: 1,
        new: &[13],
        refusal: Some((4, 14)),
    },
    Row {
        place: 203,
        removed: 1,
        new: &[5],
        refusal: Some((4, 203)),
    },
    // A Class entry that names a Class; a Fieldref whose second index names one; its first, a text.
    Row {
        place: 16,
        removed: 1,
        new: &[2],
        refusal: Some((5, 15)),
    },
    Row {
        place: 56,
        removed: 1,
        new: &[2],
        refusal: Some((5, 55)),
    },
    Row {
        place: 54,
        removed: 1,
        new: &[1],
        refusal: Some((5, 53)),
    },
    // The class, its superclass, a field's name and descriptor, an attribute's name.
    Row {
        place: 213,
        removed: 1,
        new: &[1],
        refusal: Some((5, 212)),
    },
    Row {
        place: 215,
        removed: 1,
        new: &[0],
        refusal: Some((5, 214)),
    },
    Row {
        place: 223,
        removed: 1,
        new: &[2],
        refusal: Some((5, 222)),
    },
    Row {
        place: 225,
        removed: 1,
        new: &[24],
        refusal: Some((5, 224)),
    },
    Row {
        place: 239,
        removed: 1,
        new: &[2],
        refusal: Some((5, 238)),
    },
    // A Code attribute of another length, on a field, on the class, and a second one of a method.
    Row {
        place: 243,
        removed: 1,
        new: &[0x1b],
        refusal: Some((6, 240)),
    },
    Row {
        place: 226,
        removed: 2,
        new: &[0, 1, 0, 0x17, 0, 0, 0, 0],
        refusal: Some((6, 230)),
    },
    Row {
        place: 270,
        removed: 2,
        new: &[0, 1, 0, 0x17, 0, 0, 0, 0],
        refusal: Some((6, 274)),
    },
    Row {
        place: 236,
        removed: 36,
        new: &[
            0, 2, 0, 0x17, 0, 0, 0, 13, 0, 0, 0, 0, 0, 0, 0, 1, 0xb1, 0, 0, 0, 0, 0, 0x17, 0, 0, 0,
            13,
        ],
        refusal: Some((6, 259)),
    },
    // No instructions, and 65536.
    Row {
        place: 251,
        removed: 1,
        new: &[0],
        refusal: Some((7, 248)),
    },
    Row {
        place: 249,
        removed: 3,
        new: &[1, 0, 0],
        refusal: Some((7, 248)),
    },
    // A byte behind the text.
    Row {
        place: 272,
        removed: 0,
        new: &[0],
        refusal: Some((8, 272)),
    },
    // An attribute named Code inside a Code attribute is kept as bytes.
    Row {
        place: 236,
        removed: 34,
        new: &[
            0, 1, 0, 0x17, 0, 0, 0, 20, 0, 0, 0, 0, 0, 0, 0, 1, 0xb1, 0, 0, 0, 1, 0, 0x17, 0, 0, 0,
            1, 7,
        ],
        refusal: None,
    },
];

#[test]
fn refusals(rt: HostRuntime) -> Result<(), Fail> {
    for row in &ROWS {
        let bytes = spliced(rt.alloc(), row.place, row.removed, row.new)?;
        assert_eq!(rt; refusal(rt.alloc(), &bytes), row.refusal);
    }
    Ok(())
}

// What javap says of the class: its head, its pool, and its method run.
fn has_head(class: &ClassRecord) -> bool {
    class.pool.len() == 47
        && (class.flags, class.this, class.parent) == (0x20, 11, 2)
        && class.interfaces.as_slice() == [19].as_slice()
        && (class.fields.len(), class.methods.len()) == (6, 3)
}

fn has_entries(pool: &PoolEntries) -> bool {
    matches!(entry_at(pool, 29), Some(PoolEntry::Long(1, 0)))
        && matches!(entry_at(pool, 30), Some(PoolEntry::Gap))
        && matches!(entry_at(pool, 24), Some(PoolEntry::Integer(70000)))
        && matches!(entry_at(pool, 18), Some(PoolEntry::InterfaceMethod(19, 20)))
        && matches!(entry_at(pool, 36), Some(PoolEntry::Text(37)))
}

fn has_handler(handler: &Handler) -> bool {
    (handler.start, handler.end) == (0, 13) && (handler.target, handler.catch) == (16, 16)
}

fn has_parts(body: &CodeBody) -> bool {
    (body.max_stack, body.max_locals, body.code.len()) == (2, 2, 18)
        && matches!(body.handlers.get(0), Some(handler) if has_handler(handler))
        && body.attributes.len() == 2
}

fn has_code(method: &Member) -> bool {
    match method.attributes.as_slice() {
        [Attribute::Code(body)] => has_parts(body),
        _ => false,
    }
}

#[test]
fn every_tag(rt: HostRuntime) -> Result<(), Fail> {
    let class = read_class(rt.alloc(), &EVERY)?;
    assert!(rt; has_head(&class));
    assert!(rt; has_entries(&class.pool));
    assert!(rt; matches!(class.methods.get(1), Some(run) if has_code(run)));
    Ok(())
}
