//! The classes of the tests.

use crate::profile::data::{Class, Part, THREAD_INIT, THREAD_RUN};

const OBJECT: &[u8] = b"java/lang/Object";

const THREAD: &[u8] = b"java/lang/Thread";

/// main.
const MAIN: Part = Part {
    flags: 0x0009,
    name: b"main",
    descriptor: b"([Ljava/lang/String;)V",
    attribute: None,
    code: Some(&[0xb1]),
};

/// No main: not static.
const MAIN_OF_OBJECTS: Part = Part {
    flags: 0x0001,
    name: b"main",
    descriptor: b"([Ljava/lang/String;)V",
    attribute: None,
    code: Some(&[0xb1]),
};

/// No main: synchronized.
const MAIN_SYNCHRONIZED: Part = Part {
    flags: 0x0029,
    name: b"main",
    descriptor: b"([Ljava/lang/String;)V",
    attribute: None,
    code: Some(&[0xb1]),
};

/// No main: without code.
const MAIN_NATIVE: Part = Part {
    flags: 0x0109,
    name: b"main",
    descriptor: b"([Ljava/lang/String;)V",
    attribute: None,
    code: None,
};

/// No main: another descriptor.
const MAIN_OF_INT: Part = Part {
    flags: 0x0009,
    name: b"main",
    descriptor: b"(I)V",
    attribute: None,
    code: Some(&[0xb1]),
};

/// The plain constructor of a thread class.
const INIT: Part = Part {
    flags: 0x0001,
    name: b"<init>",
    descriptor: b"()V",
    attribute: None,
    code: Some(&[0x2a, 0xb7, 0, THREAD_INIT, 0xb1]),
};

/// A constructor with a parameter.
const INIT_OF_INT: Part = Part {
    flags: 0x0001,
    name: b"<init>",
    descriptor: b"(I)V",
    attribute: None,
    code: Some(&[0x2a, 0xb7, 0, THREAD_INIT, 0xb1]),
};

/// A constructor with one more instruction.
const INIT_LONG: Part = Part {
    flags: 0x0001,
    name: b"<init>",
    descriptor: b"()V",
    attribute: None,
    code: Some(&[0x2a, 0xb7, 0, THREAD_INIT, 0xb1, 0xb1]),
};

/// A constructor that calls another method.
const INIT_RUNS: Part = Part {
    flags: 0x0001,
    name: b"<init>",
    descriptor: b"()V",
    attribute: None,
    code: Some(&[0x2a, 0xb7, 0, THREAD_RUN, 0xb1]),
};

/// A constructor without code.
const INIT_NATIVE: Part = Part {
    flags: 0x0101,
    name: b"<init>",
    descriptor: b"()V",
    attribute: None,
    code: None,
};

/// The run of a thread.
const RUN: Part = Part {
    flags: 0x0001,
    name: b"run",
    descriptor: b"()V",
    attribute: None,
    code: Some(&[0xb1]),
};

/// A static run.
const RUN_STATIC: Part = Part {
    flags: 0x0009,
    name: b"run",
    descriptor: b"()V",
    attribute: None,
    code: Some(&[0xb1]),
};

/// A synchronized run.
const RUN_SYNCHRONIZED: Part = Part {
    flags: 0x0021,
    name: b"run",
    descriptor: b"()V",
    attribute: None,
    code: Some(&[0xb1]),
};

/// A run without code.
const RUN_ABSTRACT: Part = Part {
    flags: 0x0401,
    name: b"run",
    descriptor: b"()V",
    attribute: None,
    code: None,
};

/// Another method of the name run.
const RUN_OF_INT: Part = Part {
    flags: 0x0001,
    name: b"run",
    descriptor: b"(I)V",
    attribute: None,
    code: Some(&[0xb1]),
};

/// A start that stands before that of java/lang/Thread.
const START: Part = Part {
    flags: 0x0001,
    name: b"start",
    descriptor: b"()V",
    attribute: None,
    code: Some(&[0xb1]),
};

/// The initializer of a class.
const CLASS_INIT: Part = Part {
    flags: 0x0008,
    name: b"<clinit>",
    descriptor: b"()V",
    attribute: None,
    code: Some(&[0xb1]),
};

/// A volatile int.
const X: Part = Part {
    flags: 0x0048,
    name: b"x",
    descriptor: b"I",
    attribute: None,
    code: None,
};

/// A boolean of the same name.
const X_BOOLEAN: Part = Part {
    flags: 0x0008,
    name: b"x",
    descriptor: b"Z",
    attribute: None,
    code: None,
};

/// A final text of the same name.
const X_TEXT: Part = Part {
    flags: 0x0018,
    name: b"x",
    descriptor: b"Ljava/lang/String;",
    attribute: Some(b"ConstantValue"),
    code: None,
};

/// A field of objects.
const X_OF_OBJECTS: Part = Part {
    flags: 0x0010,
    name: b"x",
    descriptor: b"I",
    attribute: None,
    code: None,
};

/// A long.
const X_LONG: Part = Part {
    flags: 0x0008,
    name: b"x",
    descriptor: b"J",
    attribute: None,
    code: None,
};

/// An int with a value.
const X_SEVEN: Part = Part {
    flags: 0x0008,
    name: b"x",
    descriptor: b"I",
    attribute: Some(b"ConstantValue"),
    code: None,
};

/// An int with an attribute that gives it no value.
const X_OLD: Part = Part {
    flags: 0x0008,
    name: b"x",
    descriptor: b"I",
    attribute: Some(b"Deprecated"),
    code: None,
};

/// A final int whose name can't be written.
const X_SEMICOLON: Part = Part {
    flags: 0x0018,
    name: b"x;",
    descriptor: b"I",
    attribute: None,
    code: None,
};

/// A final array whose name can't be written.
const TEXT_BLANK: Part = Part {
    flags: 0x0018,
    name: b"a b",
    descriptor: b"[I",
    attribute: None,
    code: None,
};

/// A class with main.
pub const M: Class = Class {
    flags: 0x0021,
    name: b"M",
    parent: OBJECT,
    fields: &[],
    methods: &[MAIN],
};

/// Another class with main.
pub const M2: Class = Class {
    flags: 0x0021,
    name: b"M2",
    parent: OBJECT,
    fields: &[],
    methods: &[MAIN_OF_INT, MAIN],
};

/// Two methods main in one class.
pub const TWO_MAINS: Class = Class {
    flags: 0x0021,
    name: b"Mm",
    parent: OBJECT,
    fields: &[],
    methods: &[MAIN, MAIN],
};

/// A thread class.
pub const T: Class = Class {
    flags: 0x0021,
    name: b"T",
    parent: THREAD,
    fields: &[X],
    methods: &[INIT, RUN, RUN_OF_INT],
};

/// A class with much that does no harm.
pub const ODD: Class = Class {
    flags: 0x0021,
    name: b"Odd/class",
    parent: OBJECT,
    fields: &[X_OLD, X_TEXT, X_TEXT, TEXT_BLANK],
    methods: &[
        INIT_LONG,
        MAIN_OF_INT,
        MAIN_OF_OBJECTS,
        START,
        RUN_ABSTRACT,
        RUN_OF_INT,
    ],
};

/// A class whose main is synchronized.
pub const NO_MAIN: Class = Class {
    flags: 0x0021,
    name: b"N",
    parent: OBJECT,
    fields: &[],
    methods: &[MAIN_SYNCHRONIZED],
};

/// A class whose main has no code.
pub const NATIVE_MAIN: Class = Class {
    flags: 0x0021,
    name: b"N2",
    parent: OBJECT,
    fields: &[],
    methods: &[MAIN_NATIVE],
};

/// A class with an initializer.
pub const INITIALIZED: Class = Class {
    flags: 0x0021,
    name: b"C",
    parent: OBJECT,
    fields: &[X_OF_OBJECTS],
    methods: &[CLASS_INIT],
};

/// A class with a field of objects.
pub const OBJECTS: Class = Class {
    flags: 0x0021,
    name: b"O",
    parent: OBJECT,
    fields: &[X, X_OF_OBJECTS],
    methods: &[],
};

/// A class with a long.
pub const LONG: Class = Class {
    flags: 0x0021,
    name: b"L",
    parent: OBJECT,
    fields: &[X_LONG],
    methods: &[],
};

/// A class with an int that has a value.
pub const SEVEN: Class = Class {
    flags: 0x0021,
    name: b"S",
    parent: OBJECT,
    fields: &[X_SEVEN],
    methods: &[],
};

/// A thread class without a constructor.
pub const NO_INIT: Class = Class {
    flags: 0x0021,
    name: b"T1",
    parent: THREAD,
    fields: &[],
    methods: &[RUN],
};

/// A thread class with two constructors.
pub const TWO_INITS: Class = Class {
    flags: 0x0021,
    name: b"T2",
    parent: THREAD,
    fields: &[],
    methods: &[INIT, INIT_OF_INT, RUN],
};

/// A thread class whose constructor has a parameter.
pub const INT_INIT: Class = Class {
    flags: 0x0021,
    name: b"T3",
    parent: THREAD,
    fields: &[],
    methods: &[INIT_OF_INT, RUN],
};

/// A thread class whose constructor is a byte too long.
pub const LONG_INIT: Class = Class {
    flags: 0x0021,
    name: b"T4",
    parent: THREAD,
    fields: &[],
    methods: &[INIT_LONG, RUN],
};

/// A thread class whose constructor calls another method.
pub const OTHER_INIT: Class = Class {
    flags: 0x0021,
    name: b"T5",
    parent: THREAD,
    fields: &[],
    methods: &[INIT_RUNS, RUN],
};

/// A thread class whose constructor has no code.
pub const NATIVE_INIT: Class = Class {
    flags: 0x0021,
    name: b"T6",
    parent: THREAD,
    fields: &[],
    methods: &[INIT_NATIVE, RUN],
};

/// A class that extends another one.
pub const CHILD: Class = Class {
    flags: 0x0021,
    name: b"K",
    parent: b"T",
    fields: &[],
    methods: &[],
};

/// An interface.
pub const INTERFACE: Class = Class {
    flags: 0x0600,
    name: b"I",
    parent: OBJECT,
    fields: &[],
    methods: &[],
};

/// An abstract thread class.
pub const ABSTRACT: Class = Class {
    flags: 0x0420,
    name: b"T7",
    parent: THREAD,
    fields: &[],
    methods: &[INIT, RUN],
};

/// A thread class with a start of its own.
pub const STARTS: Class = Class {
    flags: 0x0021,
    name: b"T8",
    parent: THREAD,
    fields: &[],
    methods: &[INIT, RUN, START],
};

/// A thread class without run.
pub const NO_RUN: Class = Class {
    flags: 0x0021,
    name: b"T9",
    parent: THREAD,
    fields: &[],
    methods: &[INIT, RUN_OF_INT],
};

/// A thread class with a static run.
pub const STATIC_RUN: Class = Class {
    flags: 0x0021,
    name: b"Ta",
    parent: THREAD,
    fields: &[],
    methods: &[INIT, RUN_STATIC],
};

/// A thread class with a synchronized run.
pub const SYNCHRONIZED_RUN: Class = Class {
    flags: 0x0021,
    name: b"Tb",
    parent: THREAD,
    fields: &[],
    methods: &[INIT, RUN_SYNCHRONIZED],
};

/// A thread class whose run has no code.
pub const ABSTRACT_RUN: Class = Class {
    flags: 0x0021,
    name: b"Tc",
    parent: THREAD,
    fields: &[],
    methods: &[INIT, RUN_ABSTRACT],
};

/// A class with an empty name.
pub const UNNAMED: Class = Class {
    flags: 0x0021,
    name: b"",
    parent: OBJECT,
    fields: &[],
    methods: &[],
};

/// A class with a dot in its name.
pub const DOTTED: Class = Class {
    flags: 0x0021,
    name: b"a.B",
    parent: OBJECT,
    fields: &[],
    methods: &[],
};

/// A class of the library.
pub const LIBRARY: Class = Class {
    flags: 0x0021,
    name: b"java/X",
    parent: OBJECT,
    fields: &[],
    methods: &[],
};

/// A class with a name of 200 bytes.
pub const LONGEST: Class = Class {
    flags: 0x0021,
    name: &[b'n'; 200],
    parent: OBJECT,
    fields: &[],
    methods: &[],
};

/// A class with a name of 201 bytes.
pub const TOO_LONG: Class = Class {
    flags: 0x0021,
    name: &[b'n'; 201],
    parent: OBJECT,
    fields: &[],
    methods: &[],
};

/// A class with a field whose name can't be written.
pub const BAD_FIELD: Class = Class {
    flags: 0x0021,
    name: b"F",
    parent: OBJECT,
    fields: &[X_SEMICOLON],
    methods: &[],
};

/// A class with two variables of one name.
pub const TWO_FIELDS: Class = Class {
    flags: 0x0021,
    name: b"F2",
    parent: OBJECT,
    fields: &[X, X_BOOLEAN],
    methods: &[],
};

/// A class with one method twice.
pub const TWO_METHODS: Class = Class {
    flags: 0x0021,
    name: b"F3",
    parent: OBJECT,
    fields: &[],
    methods: &[RUN, RUN_OF_INT, RUN_SYNCHRONIZED],
};
