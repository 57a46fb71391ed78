//! Words that are no command line, class files that make no program, and what is not built.

use crate::run::classes::{EXAMPLE, class_beside, class_of, class_with};
use crate::run::{Answer, ask, run_in, world_of};
use std::alloc::Global;
use std::test::Fail;
use verdict::Status;

const DECIDE: [&str; 8] = [
    "decide", "4", "32", "100000", "0=5", "seq", "ref", "M.class",
];

/// Whether an answer is this one, and SEQ is what it was.
fn is_answer(answer: &Answer, status: Status, text: &str) -> bool {
    answer.status == status
        && answer.out.bytes() == text.as_bytes()
        && answer.files.content("seq") == Some(b"before".as_slice())
}

// Words are judged before any file is read: the first call would fail.
#[test]
fn words_first(rt: HostRuntime) -> Result<(), Fail> {
    let rows: [(&[&str], &str); 9] = [
        (
            &["decide", "4", "33", "100", "0=5", "s", "r", "M.class"],
            "usage word 2\n",
        ),
        (
            &["decide", "4", "32", "100", "0=5;", "s", "r", "M.class"],
            "usage word 4\n",
        ),
        (
            &["decide", "4", "32", "100", "0=5", "a", "a", "M.class"],
            "usage word 6\n",
        ),
        (
            &["decide", "4", "32", "100", "0=5", "s", "r"],
            "usage word 7\n",
        ),
        (
            &["decide", "4", "32", "100", "", "s", "r", "M.class"],
            "usage word 4\n",
        ),
        (&["show"], "usage word 1\n"),
        (&["show", ""], "usage word 1\n"),
        (&["--help"], "usage word 0\n"),
        (&[], "usage word 0\n"),
    ];
    for (words, text) in rows {
        let failing = vec![in rt.alloc(); 0u64]?;
        let world = world_of(rt.alloc(), &EXAMPLE, failing, Vec::new(rt.alloc()))?;
        let answer = run_in(rt.alloc(), words, world)?;
        assert!(rt; is_answer(&answer, Status::Usage, text));
    }
    Ok(())
}

// Commands that are not built, and a program that is not straight: main jumps.
#[test]
fn not_built(rt: HostRuntime) -> Result<(), Fail> {
    let rows: [&[&str]; 3] = [
        &["check-allowed", "4", "32", "0=5", "seq", "M.class"],
        &["check-forbidden", "4", "32", "0=5", "ref", "M.class"],
        &["generate", "0", "seq", "ref"],
    ];
    for words in rows {
        let answer = ask(rt.alloc(), words, &EXAMPLE)?;
        assert!(rt; is_answer(&answer, Status::Refused, "refused not-built\n"));
    }
    let jumps = class_of(rt.alloc(), &[0xa7, 0, 3, 0xb1])?;
    let answer = ask(rt.alloc(), &DECIDE, jumps.as_slice())?;
    assert!(rt; is_answer(&answer, Status::Refused, "refused not-built\n"));
    Ok(())
}

/// Whether `decide` refuses a class file with this line.
fn is_refused(alloc: Global, class: &[u8], text: &str) -> Result<bool, Fail> {
    let answer = ask(alloc, &DECIDE, class)?;
    Ok(is_answer(&answer, Status::Refused, text))
}

// Class files that are none: cut off, of another version, with a byte behind their end, and empty.
#[test]
fn formats(rt: HostRuntime) -> Result<(), Fail> {
    let truncated = "refused format word 7 Truncated place 100\n";
    assert!(rt; is_refused(rt.alloc(), &EXAMPLE[..100], truncated)?);
    let mut class = EXAMPLE;
    class[7] = 0x32;
    let version = "refused format word 7 Version place 4\n";
    assert!(rt; is_refused(rt.alloc(), &class, version)?);
    let mut longer = Vec::new(rt.alloc());
    longer.extend_from_slice(&EXAMPLE)?;
    longer.push(0)?;
    let trailing = "refused format word 7 Trailing place 272\n";
    assert!(rt; is_refused(rt.alloc(), longer.as_slice(), trailing)?);
    let empty = "refused format word 7 Truncated place 0\n";
    assert!(rt; is_refused(rt.alloc(), &[], empty)?);
    Ok(())
}

// Codes of main, and why they make no program.
#[test]
fn codes(rt: HostRuntime) -> Result<(), Fail> {
    let rows: [(&[u8], &str); 5] = [
        (
            &[0x08, 0x04, 0x6c, 0xb1],
            "refused program class 0 method 0 pc 2 Opcode 108\n",
        ),
        (
            &[0x12, 0x02, 0xb6, 0x00, 0x1f, 0xb1],
            "refused program class 0 method 0 pc 2 ForbiddenCall java/lang/Object.wait()V\n",
        ),
        (
            &[0xa7, 0x00, 0x09, 0xb1],
            "refused program class 0 method 0 pc 0 JumpTarget\n",
        ),
        (
            &[0x57, 0xb1],
            "refused program class 0 method 0 pc 0 TypeMisfit\n",
        ),
        (
            &[0x04, 0x04, 0x04, 0xb1],
            "refused program class 0 method 0 pc 2 StackDepth\n",
        ),
    ];
    for (code, text) in rows {
        let class = class_of(rt.alloc(), code)?;
        assert!(rt; is_refused(rt.alloc(), class.as_slice(), text)?);
    }
    Ok(())
}

// A class with `<clinit>` beside main, and one without main.
#[test]
fn classes(rt: HostRuntime) -> Result<(), Fail> {
    let class = class_beside(rt.alloc(), true, 27, 28)?;
    let text = "refused program class 0 method - pc - ClassInit\n";
    assert!(rt; is_refused(rt.alloc(), class.as_slice(), text)?);
    let class = class_beside(rt.alloc(), false, 29, 28)?;
    let text = "refused program class - method - pc - NoMain\n";
    assert!(rt; is_refused(rt.alloc(), class.as_slice(), text)?);
    Ok(())
}

// A class file that is too long, and a frame that is too big.
#[test]
fn limits(rt: HostRuntime) -> Result<(), Fail> {
    let long = vec![in rt.alloc(); 0u8; 1048577]?;
    let answer = ask(rt.alloc(), &DECIDE, long.as_slice())?;
    assert!(rt; is_answer(&answer, Status::Limit, "limit ClassBytes 1048576\n"));
    let deep = class_with(rt.alloc(), 16, &[0xb1])?;
    let answer = ask(rt.alloc(), &DECIDE, deep.as_slice())?;
    assert!(rt; is_answer(&answer, Status::Limit, "limit FrameSlots 16\n"));
    Ok(())
}

// Two files: the second is broken, has the class of the first, or isn't there.
#[test]
fn two_files(rt: HostRuntime) -> Result<(), Fail> {
    let rows: [(&[&str], &[u8], Status, &str); 4] = [
        (
            &["show", "M.class", "N.class"],
            &EXAMPLE[..100],
            Status::Refused,
            "refused format word 2 Truncated place 100\n",
        ),
        (
            &[
                "decide", "4", "32", "100", "0=5", "seq", "ref", "M.class", "N.class",
            ],
            &EXAMPLE[..100],
            Status::Refused,
            "refused format word 8 Truncated place 100\n",
        ),
        (
            &["show", "M.class", "N.class"],
            &EXAMPLE,
            Status::Refused,
            "refused program class 1 method - pc - DuplicateClass\n",
        ),
        (
            &["show", "M.class", "O.class"],
            &EXAMPLE,
            Status::ReadFault,
            "read-fault word 2\n",
        ),
    ];
    for (words, class, status, text) in rows {
        let mut world = world_of(
            rt.alloc(),
            &EXAMPLE,
            Vec::new(rt.alloc()),
            Vec::new(rt.alloc()),
        )?;
        world.files.insert("N.class", class)?;
        let answer = run_in(rt.alloc(), words, world)?;
        assert!(rt; is_answer(&answer, status, text));
    }
    Ok(())
}
