//! Refutations in bytes over two instances, `on.0.0` under rule 1 and its opposite under rule 2, and the clause without
//! literals under rule 14 of 5.

use crate::small::Small;
use bytes_check::check_bytes;
use refutation_items::{CheckRefusal, Reason};
use sources::MemorySource;
use std::alloc::Global;
use std::test::Fail;
use token_reader::Reader;

fn check(alloc: Global, steps: u32, text: &[u8]) -> Result<Result<(), CheckRefusal>, Fail> {
    let source = MemorySource::open(alloc, text, Vec::new(alloc))?;
    let mut reader = Reader::open(alloc, source)?;
    Ok(check_bytes(alloc, &Small, steps, &mut reader))
}

fn wrong(line: u64, reason: Reason) -> Result<(), CheckRefusal> {
    Err(CheckRefusal::NotRefuted { line, reason })
}

#[test]
fn worked_text(rt: HostRuntime) -> Result<(), Fail> {
    let text = [74, 77, 82, 50, 3, 1, 14, 1, 6, 2, 0, 1, 1];
    assert_eq!(rt; check(rt.alloc(), 3, &text)?, Ok(()));
    assert_eq!(rt; check(rt.alloc(), 3, &text[..12])?, wrong(3, Reason::Form));
    assert_eq!(rt;
        check(rt.alloc(), 3, &text[..9])?,
        wrong(3, Reason::NoEmptyClause)
    );
    assert_eq!(rt; check(rt.alloc(), 2, &text)?, wrong(1, Reason::Form));
    assert_eq!(rt; check(rt.alloc(), 3, &[])?, wrong(1, Reason::Form));
    Ok(())
}

/// A text of three steps that goes on with these bytes.
fn after_header(alloc: Global, items: &[u8]) -> Result<Result<(), CheckRefusal>, Fail> {
    let mut text = [74, 77, 82, 50, 3].to_vec(alloc)?;
    text.extend_from_slice(items)?;
    check(alloc, 3, text.as_slice())
}

/// The two instances, as clauses 1 and 2.
const BOTH: [u8; 6] = [1, 1, 0, 1, 2, 0];

fn after_both(alloc: Global, items: &[u8]) -> Result<Result<(), CheckRefusal>, Fail> {
    let mut text = BOTH.to_vec(alloc)?;
    text.extend_from_slice(items)?;
    after_header(alloc, text.as_slice())
}

#[test]
fn hints_and_deletions(rt: HostRuntime) -> Result<(), Fail> {
    let rows: [(&[u8], Result<(), CheckRefusal>); 12] = [
        (&[2, 0, 2, 1, 2], Ok(())),
        (&[2, 0, 2, 1, 2, 0], wrong(5, Reason::Form)),
        (&[2, 0, 1, 1], wrong(4, Reason::HintNotUnit)),
        (&[2, 0, 0], wrong(4, Reason::HintNotUnit)),
        (&[2, 0, 3, 1, 2, 1], wrong(4, Reason::HintNotUnit)),
        (&[2, 0, 2, 3, 2], wrong(4, Reason::HintUnknown)),
        (&[2, 0, 2, 3], wrong(4, Reason::HintUnknown)),
        (&[2, 0, 2, 0, 2], wrong(4, Reason::HintUnknown)),
        (&[3, 1, 1, 2, 0, 2, 1, 2], wrong(5, Reason::HintUnknown)),
        (&[3, 2, 1, 1], wrong(4, Reason::Form)),
        (&[3, 1, 3], wrong(4, Reason::Form)),
        (&[4], wrong(4, Reason::Form)),
    ];
    for (items, answer) in rows {
        assert_eq!(rt; after_both(rt.alloc(), items)?, answer);
    }
    Ok(())
}

#[test]
fn hostile_items(rt: HostRuntime) -> Result<(), Fail> {
    let rows: [(&[u8], Result<(), CheckRefusal>); 8] = [
        // a rule that there is not, with six arguments, and with 2^63 of them
        (&[1, 14, 1, 7], wrong(2, Reason::BadRule)),
        (&[1, 14, 6, 1, 1, 1, 1, 1, 1], wrong(2, Reason::BadRule)),
        (
            &[1, 14, 128, 128, 128, 128, 128, 128, 128, 128, 128, 1],
            wrong(2, Reason::Form),
        ),
        // a number not in its shortest form
        (&[1, 142, 0, 1, 6], wrong(2, Reason::Form)),
        // a literal twice, beside its opposite, and of no family
        (&[2, 2, 3, 1, 1, 3, 1, 1, 0], wrong(2, Reason::Form)),
        (&[2, 2, 3, 1, 1, 2, 1, 1, 0], wrong(2, Reason::Form)),
        (&[2, 1, 57, 1, 1, 0], wrong(2, Reason::Form)),
        // a clause that is its own hint
        (&[2, 0, 1, 1], wrong(2, Reason::HintUnknown)),
    ];
    for (items, answer) in rows {
        assert_eq!(rt; after_header(rt.alloc(), items)?, answer);
    }
    let groups = [128; 70];
    assert_eq!(rt; after_header(rt.alloc(), &groups)?, wrong(2, Reason::Form));
    Ok(())
}

#[test]
fn a_read_that_fails(rt: HostRuntime) -> Result<(), Fail> {
    let text = [74, 77, 82, 50, 3];
    let source = MemorySource::open(rt.alloc(), &text, [1].to_vec(rt.alloc())?)?;
    let mut reader = Reader::open(rt.alloc(), source)?;
    assert_eq!(rt;
        check_bytes(rt.alloc(), &Small, 3, &mut reader),
        Err(CheckRefusal::Read)
    );
    Ok(())
}
