ghost use Rattle.std.specs.Prelude.{◌≡◌, ℕ, List};
ghost use Rattle.ports.specs.Faults.{HasCause};
ghost use Rattle.ports.specs.Growth.{PutsAll, SameElsewhere};

use ports::{Failed, FileSink, Files, MemoryFiles, MemorySink, RealFiles, RealOut, Sink, put_all};
use std::test::Fail;

// Adds a text to a file, through a sink that is lent to another call.
fn append_all<F: Files>(files: &mut F, name: &str, text: &[u8]) -> Result<(), Failed>
    ensures bytes { PutsAll (F.content files.old name.now) (F.content files.new name.now) result text.now }
    ensures others { SameElsewhere name.now (F.content files.old) (F.content files.new) }
    ensures reads { F.read_faults files.new ≡ F.read_faults files.old }
    ensures cause { HasCause (F.write_faults files.old) (F.write_faults files.new) result }
{
    let mut sink = FileSink::new(files, name);
    put_all(&mut sink, text)
}

#[test]
fn sinks_in_memory(rt: HostRuntime) -> Result<(), Fail> {
    let mut sink = MemorySink::open(rt.alloc(), 5, vec![in rt.alloc(); 1u64]?)?;
    let calls: [(&[u8], Result<usize, Failed>, &[u8]); 5] = [
        (b"abc", Ok(3), b"abc"),
        (b"d", Err(Failed), b"abc"),
        (b"defg", Ok(2), b"abcde"),
        (b"h", Err(Failed), b"abcde"),
        (b"", Ok(0), b"abcde"),
    ];
    for (piece, answer, held) in calls {
        assert_eq!(rt; sink.put(piece), answer);
        assert_eq!(rt; sink.bytes(), held);
    }
    let mut wide = MemorySink::open(rt.alloc(), 4, Vec::new(rt.alloc()))?;
    assert_eq!(rt; put_all(&mut wide, b"abc"), Ok(()));
    assert_eq!(rt; put_all(&mut wide, b"de"), Err(Failed));
    assert_eq!(rt; wide.bytes(), b"abcd".as_slice());
    Ok(())
}

#[test]
fn files_in_memory(rt: HostRuntime) -> Result<(), Fail> {
    let mut files = MemoryFiles::open(rt.alloc(), 6, vec![in rt.alloc(); 2u64]?)?;
    files.insert("in", b"hello")?;
    files.insert("on", b"old")?;
    files.insert("on", b"new one")?;
    let mut buf = [0u8; 3];
    assert_eq!(rt; files.read_at("in", 3, &mut buf), Ok(2));
    assert_eq!(rt; buf, *b"lo\0");
    assert_eq!(rt; files.read_at("none", 0, &mut buf), Err(Failed));
    assert_eq!(rt; files.start("a"), Err(Failed));
    assert_eq!(rt; files.content("a").is_some(), false);
    assert_eq!(rt; files.start("a"), Ok(()));
    assert_eq!(rt; files.start("b"), Ok(()));
    assert_eq!(rt; append_all(&mut files, "a", b"xyz"), Ok(()));
    assert_eq!(rt; append_all(&mut files, "b", b"uvw"), Ok(()));
    assert_eq!(rt; append_all(&mut files, "in", b"0123456789"), Err(Failed));
    assert_eq!(rt; files.append("c", b""), Err(Failed));
    assert_eq!(rt; files.start("in"), Ok(()));
    for (name, content) in [
        ("a", b"xyz".as_slice()),
        ("b", b"uvw"),
        ("on", b"new one"),
        ("in", b""),
    ] {
        assert_eq!(rt; files.content(name).expect(&rt, name), content);
    }
    Ok(())
}

#[test]
fn real_files(rt: HostRuntime) -> Result<(), Fail> {
    let name = "ports_real_files_test";
    let mut files = RealFiles::new(&rt);
    let mut buf = [0u8; 4];
    assert_eq!(rt; files.start(name), Ok(()));
    assert_eq!(rt; append_all(&mut files, name, b"some bytes"), Ok(()));
    assert_eq!(rt; files.read_at(name, 5, &mut buf), Ok(4));
    assert_eq!(rt; buf, *b"byte");
    assert_eq!(rt; files.read_at(name, 10, &mut buf), Ok(0));
    std::fs::remove_file(&rt, name)?;
    assert_eq!(rt; files.read_at(name, 0, &mut buf), Err(Failed));
    assert_eq!(rt; files.append(name, b"x"), Err(Failed));
    assert_eq!(rt; files.start("no such folder/x"), Err(Failed));
    Ok(())
}

#[test]
fn real_output(rt: HostRuntime) {
    let mut out = RealOut::new(&rt);
    assert_eq!(rt; put_all(&mut out, b"put\n"), Ok(()));
    assert_eq!(rt; out.put(b""), Ok(0));
}
