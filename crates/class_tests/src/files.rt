//! Files that make a program, and files that make none.

use class_files::{InputRefusal, Linked, link_files};
use class_profile::ClassKind;
use line_text::Words;
use linking::ProgramRefusal;
use ports::MemoryFiles;
use std::alloc::{AllocError, Global};
use std::test::Fail;

mod classes;

use classes::{PRINTER, empty_class};

/// The command, and the files behind it.
const NAMES: [&str; 4] = ["show", "first", "second", "third"];

/// The place of the first file.
const FROM: usize = 1;

/// What a file holds.
enum File {
    /// Class M, which has main.
    Printer,
    /// Class M without its last bytes.
    CutPrinter(usize),
    /// A class without methods.
    Empty(u8),
    /// That many zeros.
    Zeros(usize),
    /// There is no such file.
    Missing,
}

enum Want {
    /// The number of the classes and of the threads, and the class of main.
    Linked {
        classes: usize,
        threads: u32,
        main: u32,
    },
    ReadFault(usize),
    TooLong(usize),
    Format(usize, u8, u64),
    Class(ClassKind, Option<u32>),
}

/// Files, which call on them fails, and what comes of them.
struct Row {
    files: &'static [File],
    failing: Option<u64>,
    want: Want,
}

const ROWS: [Row; 16] = [
    Row {
        files: &[File::Printer],
        failing: None,
        want: Want::Linked {
            classes: 1,
            threads: 1,
            main: 0,
        },
    },
    Row {
        files: &[File::Printer, File::Empty(b'N')],
        failing: None,
        want: Want::Linked {
            classes: 2,
            threads: 1,
            main: 0,
        },
    },
    // the classes stand in the order of the words
    Row {
        files: &[File::Empty(b'N'), File::Empty(b'O'), File::Printer],
        failing: None,
        want: Want::Linked {
            classes: 3,
            threads: 1,
            main: 2,
        },
    },
    // no file: no class has main
    Row {
        files: &[],
        failing: None,
        want: Want::Class(ClassKind::NoMain, None),
    },
    Row {
        files: &[File::Empty(b'N')],
        failing: None,
        want: Want::Class(ClassKind::NoMain, None),
    },
    // two classes of one name
    Row {
        files: &[File::Printer, File::Printer],
        failing: None,
        want: Want::Class(ClassKind::DuplicateClass, Some(1)),
    },
    // a file that is cut: its end is the first fault
    Row {
        files: &[File::Empty(b'N'), File::CutPrinter(271)],
        failing: None,
        want: Want::Format(2, 1, 271),
    },
    // of two such files the first
    Row {
        files: &[File::CutPrinter(100), File::CutPrinter(3)],
        failing: None,
        want: Want::Format(1, 1, 100),
    },
    // the longest file, whose magic number differs
    Row {
        files: &[File::Printer, File::Zeros(1048576)],
        failing: None,
        want: Want::Format(2, 2, 0),
    },
    Row {
        files: &[File::Printer, File::Zeros(1048577)],
        failing: None,
        want: Want::TooLong(2),
    },
    // all files are read before one is looked at
    Row {
        files: &[File::CutPrinter(3), File::Printer, File::Zeros(1048577)],
        failing: None,
        want: Want::TooLong(3),
    },
    Row {
        files: &[File::CutPrinter(3), File::Missing],
        failing: None,
        want: Want::ReadFault(2),
    },
    // the second file's first read fails, and the one that finds its end
    Row {
        files: &[File::Printer, File::Empty(b'N')],
        failing: Some(2),
        want: Want::ReadFault(2),
    },
    Row {
        files: &[File::Printer, File::Empty(b'N')],
        failing: Some(3),
        want: Want::ReadFault(2),
    },
    // a file that is too long, in 257 pieces, before one that can't be read
    Row {
        files: &[File::Zeros(1048577), File::Printer],
        failing: Some(257),
        want: Want::TooLong(1),
    },
    // a read fails in the midst of a file that is too long
    Row {
        files: &[File::Zeros(1048577), File::Printer],
        failing: Some(256),
        want: Want::ReadFault(1),
    },
];

/// The bytes of a file, if there is one.
fn bytes_of(alloc: Global, file: &File) -> Result<Option<Vec<u8>>, AllocError> {
    Ok(match file {
        File::Printer => Some(Vec::from_slice(alloc, &PRINTER)?),
        File::CutPrinter(length) => {
            let length = PRINTER.len().min(*length);
            Some(Vec::from_slice(alloc, &PRINTER[..length])?)
        }
        File::Empty(name) => Some(empty_class(alloc, *name)?),
        File::Zeros(length) => Some(vec![in alloc; 0u8; *length]?),
        File::Missing => None,
    })
}

/// The command and the names of some files.
fn words_for(alloc: Global, files: &[File]) -> Result<Words, Fail> {
    let mut words = Words::new(alloc);
    for (place, name) in NAMES.iter().enumerate() {
        if place <= files.len() {
            words.push(name)?;
        }
    }
    Ok(words)
}

/// Files of these names.
fn files_of(alloc: Global, row: &Row) -> Result<MemoryFiles, Fail> {
    let mut failing = Vec::new(alloc);
    if let Some(call) = row.failing {
        failing.push(call)?;
    }
    let mut files = MemoryFiles::open(alloc, 4096, failing)?;
    for (name, file) in NAMES[FROM..].iter().zip(row.files) {
        if let Some(bytes) = bytes_of(alloc, file)? {
            files.insert(name, bytes.as_slice())?;
        }
    }
    Ok(files)
}

/// Whether the files hold what they held.
fn hold_the_same(alloc: Global, row: &Row, files: &MemoryFiles) -> Result<bool, Fail> {
    for (name, file) in NAMES[FROM..].iter().zip(row.files) {
        let same = match (bytes_of(alloc, file)?, files.content(name)) {
            (Some(bytes), Some(content)) => bytes.as_slice() == content,
            (None, None) => true,
            _ => false,
        };
        if !same {
            return Ok(false);
        }
    }
    Ok(true)
}

/// Whether what the files make is what is wanted.
fn is_wanted(linked: &Result<Linked, InputRefusal>, want: &Want) -> bool {
    match (linked, want) {
        (
            Ok(linked),
            Want::Linked {
                classes,
                threads,
                main,
            },
        ) => {
            linked.classes.len() == *classes
                && linked.program.threads() == *threads
                && linked.program.methods().iter().all(|id| id.class == *main)
        }
        (Err(InputRefusal::ReadFault { word }), Want::ReadFault(at)) => *word == *at,
        (Err(InputRefusal::TooLong { word }), Want::TooLong(at)) => *word == *at,
        (Err(InputRefusal::Format { word, kind, place }), Want::Format(at, fault, byte)) => {
            *word == *at && *kind == *fault && *place == *byte
        }
        (
            Err(InputRefusal::Program(ProgramRefusal::Class { kind, class })),
            Want::Class(fault, at),
        ) => *kind == *fault && *class == *at,
        _ => false,
    }
}

#[test]
fn files(rt: HostRuntime) -> Result<(), Fail> {
    for (place, row) in ROWS.iter().enumerate() {
        let words = words_for(rt.alloc(), row.files)?;
        let mut files = files_of(rt.alloc(), row)?;
        let from = FROM.min(words.len());
        assert!(rt; words.len() <= 65535);
        let linked = link_files(rt.alloc(), &words, from, &mut files);
        assert_eq!(rt; (place, is_wanted(&linked, &row.want)), (place, true));
        assert_eq!(rt;
            (place, hold_the_same(rt.alloc(), row, &files)?),
            (place, true)
        );
    }
    Ok(())
}
