use ports::MemorySink;
use std::test::Fail;
use var_names::{Lit, put_lit, put_lit_bytes, read_lit, read_lit_bytes};

fn named(text: &[u8]) -> Result<Lit, Fail> {
    Ok(read_lit(text).ok_or("no literal")?)
}

#[test]
fn words_both_ways(rt: HostRuntime) -> Result<(), Fail> {
    let texts: [&[u8]; 5] = [
        b"+on.0.0",
        b"-sl.1.20.3.31",
        b"+se.0.4.d",
        b"-pw.2.4294967295.d",
        b"+ob.1.2.3",
    ];
    for text in texts {
        let lit = named(text)?;
        let mut sink = MemorySink::open(rt.alloc(), 40, Vec::new(rt.alloc()))?;
        put_lit(&mut sink, &lit)?;
        assert_eq!(rt; sink.bytes(), text);
    }
    Ok(())
}

#[test]
fn no_literals_in_words(rt: HostRuntime) -> Result<(), Fail> {
    let texts: [&[u8]; 14] = [
        b"",
        b"+",
        b"on.0.0",
        b"+on",
        b"+on.0",
        b"+on.0.0.0",
        b"+on.0.d",
        b"+se.0.d.4",
        b"+on.00.0",
        b"+on.0.+1",
        b"+on.0.4294967296",
        b"+xx.0.0",
        b"+on.0.0.",
        b"+on..0",
    ];
    for text in texts {
        assert!(rt; read_lit(text).is_none());
    }
    Ok(())
}

#[test]
fn bytes_both_ways(rt: HostRuntime) -> Result<(), Fail> {
    let lit = named(b"+se.0.4.d")?;
    let mut sink = MemorySink::open(rt.alloc(), 40, Vec::new(rt.alloc()))?;
    put_lit_bytes(&mut sink, &lit)?;
    assert_eq!(rt; sink.bytes(), [15, 1, 5, 0].as_slice());
    let (read, len) = read_lit_bytes(&[15, 1, 5, 0, 7]).ok_or("no literal")?;
    assert_eq!(rt; len, 4);
    assert_eq!(rt; read, lit);

    let large = named(b"-sl.1.4294967295.127.128")?;
    let mut sink = MemorySink::open(rt.alloc(), 40, Vec::new(rt.alloc()))?;
    put_lit_bytes(&mut sink, &large)?;
    assert_eq!(rt;
        sink.bytes(),
        [6, 2, 128, 128, 128, 128, 16, 128, 1, 129, 1].as_slice()
    );
    Ok(())
}

#[test]
fn no_literals_in_bytes(rt: HostRuntime) -> Result<(), Fail> {
    let texts: [&[u8]; 9] = [
        &[],
        &[0],
        &[1, 1, 1],
        &[56, 1, 1],
        &[3, 1],
        &[3, 1, 129],
        &[3, 1, 129, 0],
        &[3, 1, 0],
        &[3, 1, 129, 128, 128, 128, 16],
    ];
    for text in texts {
        assert!(rt; read_lit_bytes(text).is_none());
    }
    let groups = [128; 70];
    assert!(rt; read_lit_bytes(&groups).is_none());
    Ok(())
}
