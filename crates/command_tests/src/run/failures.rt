//! Files and outputs that fail.

use crate::run::classes::EXAMPLE;
use crate::run::{run_in, world_of};
use std::alloc::Global;
use std::test::Fail;
use verdict::Status;

const DECIDE: [&str; 8] = [
    "decide", "4", "32", "100000", "0=5", "seq", "ref", "M.class",
];

/// A number at which nothing fails.
const NEVER: u64 = 1000000;

/// What comes of words where one call on the files or one put to the output fails: the status, the output, and SEQ.
struct Failure {
    words: &'static [&'static str],
    call: u64,
    put: u64,
    status: Status,
    text: &'static str,
    seq: &'static str,
}

/// The text of SEQ up to its first thread.
const SEQ_FRONT: &str = "jmm-sequence 1\nexecution\n";

const READ_FAULT: &str = "read-fault word 7\n";

// Of `decide` the first call reads the class, the second finds its end, the third starts SEQ, and the others append to it.
const ROWS: [Failure; 8] = [
    Failure {
        words: &DECIDE,
        call: 0,
        put: NEVER,
        status: Status::ReadFault,
        text: READ_FAULT,
        seq: "before",
    },
    Failure {
        words: &DECIDE,
        call: 1,
        put: NEVER,
        status: Status::ReadFault,
        text: READ_FAULT,
        seq: "before",
    },
    Failure {
        words: &DECIDE,
        call: 2,
        put: NEVER,
        status: Status::WriteFault,
        text: "",
        seq: "before",
    },
    Failure {
        words: &DECIDE,
        call: 3,
        put: NEVER,
        status: Status::WriteFault,
        text: "",
        seq: "",
    },
    Failure {
        words: &DECIDE,
        call: 4,
        put: NEVER,
        status: Status::WriteFault,
        text: "",
        seq: SEQ_FRONT,
    },
    Failure {
        words: &["show", "M.class"],
        call: 0,
        put: NEVER,
        status: Status::ReadFault,
        text: "read-fault word 1\n",
        seq: "before",
    },
    Failure {
        words: &["show", "M.class"],
        call: NEVER,
        put: 2,
        status: Status::WriteFault,
        text: "threads 1",
        seq: "before",
    },
    Failure {
        words: &["decide"],
        call: 0,
        put: 0,
        status: Status::WriteFault,
        text: "",
        seq: "before",
    },
];

/// Whether it comes of it.
fn comes(alloc: Global, row: &Failure) -> Result<bool, Fail> {
    let calls = vec![in alloc; row.call]?;
    let puts = vec![in alloc; row.put]?;
    let world = world_of(alloc, &EXAMPLE, calls, puts)?;
    let answer = run_in(alloc, row.words, world)?;
    Ok(
        answer.status == row.status
            && answer.out.bytes() == row.text.as_bytes()
            && answer.files.content("seq") == Some(row.seq.as_bytes()),
    )
}

#[test]
fn failures(rt: HostRuntime) -> Result<(), Fail> {
    for row in &ROWS {
        assert!(rt; comes(rt.alloc(), row)?);
    }
    Ok(())
}

// Where the output fails within a verdict, SEQ is written already.
#[test]
fn output_fails(rt: HostRuntime) -> Result<(), Fail> {
    let calls = vec![in rt.alloc(); NEVER]?;
    let puts = vec![in rt.alloc(); 1u64]?;
    let world = world_of(rt.alloc(), &EXAMPLE, calls, puts)?;
    let answer = run_in(rt.alloc(), &DECIDE, world)?;
    assert_eq!(rt; answer.status, Status::WriteFault);
    assert_eq!(rt; answer.out.bytes(), b"verdict allowed\n".as_slice());
    let seq = answer.files.content("seq");
    assert_eq!(rt;
        seq.is_some_and(|text| text.starts_with(SEQ_FRONT.as_bytes())),
        true
    );
    Ok(())
}
