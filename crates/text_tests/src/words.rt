use line_text::outcome::{Outcome, Values};
use line_text::{
    Command, OutcomeRefusal, Words, WordsRefusal, put_number, read_outcome, read_words,
};
use ports::{Failed, Memory, MemorySink};
use std::alloc::Global;
use std::test::Fail;

#[test]
fn outcomes(rt: HostRuntime) -> Result<(), Fail> {
    let mut outcome = Outcome::new(rt.alloc());
    assert_eq!(rt; outcome.len(), 0);
    outcome.name(2)?;
    outcome.value(-7)?;
    outcome.value(5)?;
    outcome.name(9)?;
    assert_eq!(rt; outcome.len(), 2);
    assert!(rt; outcome.get(2).is_none());
    let first = outcome.get(0).expect(&rt, "first");
    let second = outcome.get(1).expect(&rt, "second");
    assert_eq!(rt; (first.thread, first.values.len()), (2, 2));
    assert_eq!(rt; (second.thread, second.values.len()), (9, 0));
    assert_eq!(rt; first.values.get(0).copied(), Some(-7));
    let mut values = Values::new(rt.alloc());
    values.push(-7)?;
    assert!(rt; !values.same(&first.values));
    values.push(5)?;
    assert!(rt; values.same(&first.values));
    Ok(())
}

#[test]
fn numbers(rt: HostRuntime) -> Result<(), Fail> {
    let rows: [(i128, &str); 6] = [
        (0, "0"),
        (9, "9"),
        (-10, "-10"),
        (18446744073709551615, "18446744073709551615"),
        (i128::MAX, "170141183460469231731687303715884105727"),
        (i128::MIN, "-170141183460469231731687303715884105728"),
    ];
    for (number, text) in rows {
        let mut sink = MemorySink::open(rt.alloc(), 40, Vec::new(rt.alloc()))?;
        assert_eq!(rt; put_number(&mut sink, number), Ok(()));
        assert_eq!(rt; sink.bytes(), text.as_bytes());
    }
    let mut short = MemorySink::open(rt.alloc(), 2, Vec::new(rt.alloc()))?;
    assert_eq!(rt; put_number(&mut short, 345), Err(Failed));
    Ok(())
}

#[test]
fn outcome_texts(rt: HostRuntime) -> Result<(), Fail> {
    let outcome = read_outcome(rt.alloc(), "0=1,-2147483648;3=;7=2147483647")?;
    let lens = [3, 2, 0, 1];
    assert_eq!(rt; outcome.len(), lens[0]);
    for (at, thread) in [(0, 0), (1, 3), (2, 7)] {
        let part = outcome.get(at).expect(&rt, "part");
        assert_eq!(rt; part.thread, thread);
        assert_eq!(rt; Some(part.values.len()), lens.get(at + 1).copied());
    }
    let last = outcome.get(2).expect(&rt, "last");
    assert_eq!(rt; last.values.get(0).copied(), Some(2147483647));
    let faults = [
        ("", 0),
        ("8=", 0),
        ("0", 1),
        ("0:", 1),
        ("0=+1", 2),
        ("0= 1", 2),
        ("0=-0", 3),
        ("0=01", 3),
        ("0=1x", 3),
        ("0=1,", 4),
        ("0=,1", 2),
        ("0=1;", 4),
        ("1=;1=", 3),
        ("7=;", 2),
        ("0=2147483648", 11),
        ("0=-2147483649", 12),
    ];
    for (text, place) in faults {
        match read_outcome(rt.alloc(), text) {
            Ok(_) => assert!(rt; false, "{text} is no outcome"),
            Err(refusal) => assert_eq!(rt; refusal, OutcomeRefusal::Fault { place }, "at {text}"),
        }
    }
    Ok(())
}

#[test]
fn more_outcome_faults(rt: HostRuntime) -> Result<(), Fail> {
    let faults = [
        ("0==", 2),
        ("00=1", 1),
        ("-1=0", 0),
        ("0=-", 3),
        ("0=--1", 3),
        ("0=1;;1=2", 4),
        (";0=1", 0),
        ("0=1,,2", 4),
        ("0=1;0=2", 4),
        ("2=1;1=1", 4),
        ("0=1 ", 3),
        ("0=00", 3),
        ("0=-2147483648,2147483648", 23),
        ("9=1", 0),
        ("x", 0),
        ("0=\u{e9}", 2),
    ];
    for (text, place) in faults {
        match read_outcome(rt.alloc(), text) {
            Ok(_) => assert!(rt; false, "{text} is no outcome"),
            Err(refusal) => assert_eq!(rt; refusal, OutcomeRefusal::Fault { place }, "at {text}"),
        }
    }
    Ok(())
}

#[test]
fn accepted_outcomes(rt: HostRuntime) -> Result<(), Fail> {
    let texts = [
        ("0=", 1),
        ("7=", 1),
        ("0=0", 1),
        ("0=-1", 1),
        ("0=2147483647,-2147483648", 1),
        ("0=1;1=2;7=3", 3),
        ("1=;2=;3=", 3),
    ];
    for (text, parts) in texts {
        let outcome = read_outcome(rt.alloc(), text)?;
        assert_eq!(rt; outcome.len(), parts, "at {text}");
    }
    Ok(())
}

// The words of a line, a blank between each two.
fn words_of(alloc: Global, line: &str) -> Result<Words, Memory> {
    let mut words = Words::new(alloc);
    for word in line.split(' ') {
        words.push(word)?;
    }
    Ok(words)
}

#[test]
fn command_lines(rt: HostRuntime) -> Result<(), Fail> {
    let decide = words_of(
        rt.alloc(),
        "decide 255 2 18446744073709551615 0=1;2= s r c1 c2",
    )?;
    assert_eq!(rt; decide.len(), 9);
    let command = read_words(rt.alloc(), &decide)?;
    let Command::Decide {
        bounds,
        budget,
        outcome,
        seq,
        refutation,
        classes,
    } = command
    else {
        panic!(rt; "decide is read as another command");
    };
    assert_eq!(rt;
        (bounds.jumps, bounds.width, budget),
        (255, 2, 18446744073709551615)
    );
    assert_eq!(rt; (outcome.len(), seq, refutation, classes), (2, 5, 6, 7));
    for line in [
        "check-allowed 0 32 1= s c",
        "check-forbidden 0 32 1= r c",
        "show c",
        "generate 767 s r",
    ] {
        assert!(rt;
            read_words(rt.alloc(), &words_of(rt.alloc(), line)?).is_ok(),
            "{line}"
        );
    }
    let faults = [
        ("--help", 0),
        ("show", 1),
        ("show ", 1),
        ("show a b a", 3),
        ("decide 256 2", 1),
        ("decide 00 2", 1),
        ("decide +1 2", 1),
        ("decide 0 1", 2),
        ("decide 0 33", 2),
        ("decide 0 2 18446744073709551616", 3),
        ("decide 0 2 1 8=", 4),
        ("decide 0 2 1 0= s s c", 6),
        ("decide 0 2 1 0= s r", 7),
        ("check-allowed 1 2 0= s", 5),
        ("generate 768 s r", 1),
        ("generate 1 s r x", 4),
    ];
    for (line, word) in faults {
        match read_words(rt.alloc(), &words_of(rt.alloc(), line)?) {
            Ok(_) => assert!(rt; false, "{line} is no command line"),
            Err(refusal) => assert_eq!(rt; refusal, WordsRefusal::Usage { word }, "at {line}"),
        }
    }
    assert!(rt; read_words(rt.alloc(), &Words::new(rt.alloc())).is_err());
    Ok(())
}

#[test]
fn more_command_faults(rt: HostRuntime) -> Result<(), Fail> {
    let faults = [
        ("", 0),
        ("Show c", 0),
        ("show c c", 2),
        ("generate", 1),
        ("generate 00 s r", 1),
        ("generate 0 s s", 3),
        ("generate 0 s", 3),
        ("check-forbidden 0 32 1= r", 5),
        ("check-forbidden 0 32 x r c", 3),
        ("check-allowed 0 32 1= c c", 5),
        ("check-allowed 0 32 0=1;0=1 s c", 3),
        ("check-allowed 256 32 1= s c", 1),
        ("decide", 1),
        ("decide 0 02 1 0= s r c", 2),
        ("decide 0 2 -1 0= s r c", 3),
        ("decide 0 2 1 0=  r c", 5),
        ("decide 0 2 1 0= s r s", 7),
    ];
    for (line, word) in faults {
        match read_words(rt.alloc(), &words_of(rt.alloc(), line)?) {
            Ok(_) => assert!(rt; false, "{line} is no command line"),
            Err(refusal) => assert_eq!(rt; refusal, WordsRefusal::Usage { word }, "at {line}"),
        }
    }
    Ok(())
}
