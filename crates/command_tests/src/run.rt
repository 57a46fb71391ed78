//! Programs with their verdicts and listings, refusals, and files and outputs that fail.

use line_text::Words;
use ports::{MemoryFiles, MemorySink};
use std::alloc::Global;
use std::test::Fail;
use verdict::{Status, run};

mod classes;
mod failures;
mod refusals;
mod rows;

use classes::{EXAMPLE, class_of};
use rows::ROWS;

/// What `run` answered, put to the output and left in the files.
#[derive(Drop)]
struct Answer {
    status: Status,
    out: MemorySink,
    files: MemoryFiles,
}

/// What a command finds: files by name, and the numbers of the calls on them and of the puts to the output that fail.
#[derive(Drop)]
struct World {
    files: MemoryFiles,
    out: MemorySink,
}

/// A world with a file `seq` and this class file.
fn world_of(
    alloc: Global,
    class: &[u8],
    failing: Vec<u64>,
    failing_puts: Vec<u64>,
) -> Result<World, Fail> {
    let mut files = MemoryFiles::open(alloc, 4096, failing)?;
    files.insert("M.class", class)?;
    files.insert("seq", b"before")?;
    let out = MemorySink::open(alloc, 4096, failing_puts)?;
    Ok(World { files, out })
}

/// What these words come to there.
fn run_in(alloc: Global, texts: &[&str], world: World) -> Result<Answer, Fail> {
    let mut words = Words::new(alloc);
    for text in texts {
        words.push(text)?;
    }
    let World { mut files, mut out } = world;
    let status = run(alloc, &words, &mut files, &mut out);
    Ok(Answer { status, out, files })
}

/// What these words come to with this class file, where nothing fails.
fn ask(alloc: Global, texts: &[&str], class: &[u8]) -> Result<Answer, Fail> {
    let world = world_of(alloc, class, Vec::new(alloc), Vec::new(alloc))?;
    run_in(alloc, texts, world)
}

// Each row's verdict; SEQ is written anew where the outcome is allowed, and else left alone.
#[test]
fn verdicts(rt: HostRuntime) -> Result<(), Fail> {
    for row in &ROWS {
        let class = class_of(rt.alloc(), row.code)?;
        let words = [
            "decide",
            "4",
            row.width,
            "100000",
            row.outcome,
            "seq",
            "ref",
            "M.class",
        ];
        let answer = ask(rt.alloc(), &words, class.as_slice())?;
        let status = if row.allowed {
            Status::Allowed
        } else {
            Status::Forbidden
        };
        assert_eq!(rt; answer.status, status);
        let seq = answer.files.content("seq");
        assert_eq!(rt; seq == Some(b"before".as_slice()), !row.allowed);
        assert_eq!(rt; answer.files.content("ref").is_some(), false);
    }
    Ok(())
}

/// A SEQ of main alone, which prints once.
const PRINTS_ONCE: &str = "jmm-sequence 1
execution
t 0
a 0 first
a 3 print
a 5 last
so 0 5
step
commit 0 3 5
t 0
a 0 first
a 3 print
a 5 last
so 0 5
end
";

// The lines of the output, and a whole SEQ.
#[test]
fn texts(rt: HostRuntime) -> Result<(), Fail> {
    let lines: [(&str, &str, &str); 3] = [
        (
            "32",
            "0=5",
            "verdict allowed\nbounds jumps 4 width 32 whole yes\nbudget 100000\n",
        ),
        (
            "32",
            "5=1",
            "verdict forbidden\nbounds jumps 4 width 32 whole yes\nbudget 100000\n",
        ),
        (
            "8",
            "0=5",
            "verdict allowed\nbounds jumps 4 width 8 whole no\nbudget 100000\n",
        ),
    ];
    for (width, outcome, text) in lines {
        let words = [
            "decide", "4", width, "100000", outcome, "seq", "ref", "M.class",
        ];
        let answer = ask(rt.alloc(), &words, &EXAMPLE)?;
        assert_eq!(rt; answer.out.bytes(), text.as_bytes());
    }
    let print = [0xb2, 0, 14, 0x06, 0xb6, 0, 20, 0xb1];
    let class = class_of(rt.alloc(), &print)?;
    let words = [
        "decide", "4", "32", "100000", "0=3", "seq", "ref", "M.class",
    ];
    let answer = ask(rt.alloc(), &words, class.as_slice())?;
    assert_eq!(rt; answer.files.content("seq"), Some(PRINTS_ONCE.as_bytes()));
    Ok(())
}

/// The listing of the example.
const LISTING: &str = "threads 1 variables 1 monitors 0
variable M.x plain
thread 0 M.main([Ljava/lang/String;)V
method M.main([Ljava/lang/String;)V
0 iconst_5
1 putstatic M.x
4 getstatic java/lang/System.out
7 getstatic M.x
10 invokevirtual java/io/PrintStream.println(I)V
13 return
";

// `show` lists, and writes no file. It also lists a program that is not straight: main jumps.
#[test]
fn shows(rt: HostRuntime) -> Result<(), Fail> {
    let answer = ask(rt.alloc(), &["show", "M.class"], &EXAMPLE)?;
    assert_eq!(rt; answer.status, Status::Shown);
    assert_eq!(rt; answer.out.bytes(), LISTING.as_bytes());
    assert_eq!(rt; answer.files.content("seq"), Some(b"before".as_slice()));
    let jumps = class_of(rt.alloc(), &[0xa7, 0, 3, 0xb1])?;
    let answer = ask(rt.alloc(), &["show", "M.class"], jumps.as_slice())?;
    assert_eq!(rt; answer.status, Status::Shown);
    let listing = "threads 1 variables 0 monitors 0
thread 0 M.main([Ljava/lang/String;)V
method M.main([Ljava/lang/String;)V
0 goto 3
3 return
";
    assert_eq!(rt; answer.out.bytes(), listing.as_bytes());
    Ok(())
}

#[test]
fn numbers(rt: HostRuntime) -> Result<(), Fail> {
    for (status, number) in [
        (Status::Allowed, 0),
        (Status::Forbidden, 1),
        (Status::Shown, 0),
        (Status::Usage, 4),
        (Status::Refused, 5),
        (Status::Limit, 6),
        (Status::ReadFault, 7),
        (Status::WriteFault, 8),
        (Status::Memory, 9),
    ] {
        assert_eq!(rt; status.number(), number);
    }
    Ok(())
}
