//! Whole listings, names with foreign bytes, and a sink that fails within a listing.

use class_format::{ClassRecord, read_class};
use opcodes::Instr;
use ports::{Failed, MemorySink};
use program_listing::{name_of_instruction, put_detail, put_listing};
use std::alloc::Global;
use std::test::Fail;

mod classes;
mod programs;

use classes::{MAIN_CLASS, SMALL, THREAD_CLASS, record};
use programs::{PRINTS_FIVE, STARTS_A_THREAD, program_of};

const SMALL_LISTING: &str = "threads 1 variables 1 monitors 0
variable M.x plain
thread 0 M.main([Ljava/lang/String;)V
method M.main([Ljava/lang/String;)V
0 iconst_5
1 putstatic M.x
4 getstatic java/lang/System.out
7 getstatic M.x
10 invokevirtual java/io/PrintStream.println(I)V
13 return
";

const THREADS_LISTING: &str = "threads 2 variables 2 monitors 2
variable M.v volatile
variable T.w plain
monitor M
monitor ??
thread 0 M.main([Ljava/lang/String;)V
thread 1 T.run()V
method M.main([Ljava/lang/String;)V
0 new T
3 dup
4 invokespecial T.<init>()V
7 invokevirtual T.start()V
10 ldc -1
12 istore_1
13 iinc 1 -1
16 ldc M
18 monitorenter
19 iload 1
21 ifne 13
24 bipush -3
26 putstatic M.v
29 invokestatic M.a?b?c()V
32 sipush -300
35 ldc_w -1
38 astore 255
40 goto 43
43 return
method M.a?b?c()V
0 return
method T.run()V
0 getstatic M.v
3 pop
4 goto 0
";

/// The one class of the small listing.
fn small_class(alloc: Global) -> Result<Vec<ClassRecord>, Fail> {
    let mut classes = Vec::new(alloc);
    classes.push(read_class(alloc, &SMALL)?)?;
    Ok(classes)
}

// A class with one thread, and two classes with two.
#[test]
fn listings(rt: HostRuntime) -> Result<(), Fail> {
    let mut sink = MemorySink::open(rt.alloc(), 4096, Vec::new(rt.alloc()))?;
    let classes = small_class(rt.alloc())?;
    let program = program_of(&rt, rt.alloc(), &PRINTS_FIVE)?;
    assert_eq!(rt; put_listing(&mut sink, &classes, &program), Ok(()));
    assert_eq!(rt; sink.bytes(), SMALL_LISTING.as_bytes());
    let mut sink = MemorySink::open(rt.alloc(), 4096, Vec::new(rt.alloc()))?;
    let mut classes = Vec::new(rt.alloc());
    classes.push(record(rt.alloc(), &MAIN_CLASS)?)?;
    classes.push(record(rt.alloc(), &THREAD_CLASS)?)?;
    let program = program_of(&rt, rt.alloc(), &STARTS_A_THREAD)?;
    assert_eq!(rt; put_listing(&mut sink, &classes, &program), Ok(()));
    assert_eq!(rt; sink.bytes(), THREADS_LISTING.as_bytes());
    Ok(())
}

// The room of a sink, the number of the put that fails, and how many bytes of the listing were put.
#[test]
fn failing_sinks(rt: HostRuntime) -> Result<(), Fail> {
    let classes = small_class(rt.alloc())?;
    let program = program_of(&rt, rt.alloc(), &PRINTS_FIVE)?;
    for (room, call, put) in [(4096, 0, 0), (4096, 2, 9), (30, 1000, 30)] {
        let failing = vec![in rt.alloc(); call]?;
        let mut sink = MemorySink::open(rt.alloc(), room, failing)?;
        assert_eq!(rt; put_listing(&mut sink, &classes, &program), Err(Failed));
        assert_eq!(rt; Some(sink.bytes()), SMALL_LISTING.as_bytes().get(..put));
    }
    Ok(())
}

// Names, and what prints of them.
#[test]
fn details(rt: HostRuntime) -> Result<(), Fail> {
    let rows: [(&[u8], &str); 6] = [
        (b"", ""),
        (b"M.x", "M.x"),
        (
            b"java/io/PrintStream.println(I)V",
            "java/io/PrintStream.println(I)V",
        ),
        (b"a\x01b\x7fc", "a?b?c"),
        (b" !~\x7f", "?!~?"),
        (b"\xc3\xa9\n", "???"),
    ];
    for (bytes, text) in rows {
        let mut sink = MemorySink::open(rt.alloc(), 64, Vec::new(rt.alloc()))?;
        assert_eq!(rt; put_detail(&mut sink, bytes), Ok(()));
        assert_eq!(rt; sink.bytes(), text.as_bytes());
    }
    Ok(())
}

// The names with digits and underscores, as the JVMS spells them in chapter 7.
#[test]
fn names(rt: HostRuntime) -> Result<(), Fail> {
    let rows: [(Instr, &[u8]); 14] = [
        (Instr::Nop, b"nop"),
        (Instr::IconstM1, b"iconst_m1"),
        (Instr::Iconst0, b"iconst_0"),
        (Instr::LdcW { index: 1 }, b"ldc_w"),
        (Instr::Iload3, b"iload_3"),
        (Instr::Aload0, b"aload_0"),
        (Instr::Istore2, b"istore_2"),
        (Instr::Astore1, b"astore_1"),
        (Instr::Iushr, b"iushr"),
        (Instr::I2b, b"i2b"),
        (Instr::Ifge { distance: 3 }, b"ifge"),
        (Instr::IfIcmplt { distance: 3 }, b"if_icmplt"),
        (Instr::Ireturn, b"ireturn"),
        (Instr::Monitorexit, b"monitorexit"),
    ];
    for (instr, name) in rows {
        assert_eq!(rt; name_of_instruction(&instr), name);
    }
    Ok(())
}
