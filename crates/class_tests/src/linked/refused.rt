//! Classes that are refused for what they are, or for one of their instructions.

use super::{A, C, INIT, MAIN, RETURN, Row, Twist, Want};
use class_profile::ClassKind;
use reached_methods::CodeKind;

/// Refusals of classes.
pub const CLASS_ROWS: [Row; 10] = [
    // the constructor of T does more than it may
    Row {
        twist: Twist::Nothing,
        flags: 9,
        codes: [RETURN, RETURN, RETURN, RETURN, RETURN, RETURN, RETURN],
        want: Want::Class(ClassKind::Constructor, Some(2)),
    },
    // the same, and an unknown number in main
    Row {
        twist: Twist::Nothing,
        flags: 9,
        codes: [&[0x6c], RETURN, RETURN, RETURN, RETURN, RETURN, RETURN],
        want: Want::Class(ClassKind::Constructor, Some(2)),
    },
    // two classes have one name
    Row {
        twist: Twist::SameClass,
        flags: 9,
        codes: [RETURN, RETURN, RETURN, RETURN, RETURN, INIT, RETURN],
        want: Want::Class(ClassKind::DuplicateClass, Some(1)),
    },
    // main isn't static
    Row {
        twist: Twist::NoMain,
        flags: 9,
        codes: [RETURN, RETURN, RETURN, RETURN, RETURN, INIT, RETURN],
        want: Want::Class(ClassKind::NoMain, None),
    },
    // M has a class initializer
    Row {
        twist: Twist::ClassInit,
        flags: 9,
        codes: [RETURN, RETURN, RETURN, RETURN, RETURN, INIT, RETURN],
        want: Want::Class(ClassKind::ClassInit, Some(0)),
    },
    // N has a field of objects
    Row {
        twist: Twist::InstanceField,
        flags: 9,
        codes: [RETURN, RETURN, RETURN, RETURN, RETURN, INIT, RETURN],
        want: Want::Class(ClassKind::InstanceField, Some(1)),
    },
    // N has a field that is no int
    Row {
        twist: Twist::FieldType,
        flags: 9,
        codes: [RETURN, RETURN, RETURN, RETURN, RETURN, INIT, RETURN],
        want: Want::Class(ClassKind::FieldType, Some(1)),
    },
    // N is an interface
    Row {
        twist: Twist::Interface,
        flags: 9,
        codes: [RETURN, RETURN, RETURN, RETURN, RETURN, INIT, RETURN],
        want: Want::Class(ClassKind::ThreadClass, Some(1)),
    },
    // N has two methods of one name and descriptor
    Row {
        twist: Twist::SameMethod,
        flags: 9,
        codes: [RETURN, RETURN, RETURN, RETURN, RETURN, INIT, RETURN],
        want: Want::Class(ClassKind::NameForm, Some(1)),
    },
    // N is an interface, but the constructor of T counts first
    Row {
        twist: Twist::Interface,
        flags: 9,
        codes: [RETURN, RETURN, RETURN, RETURN, RETURN, RETURN, RETURN],
        want: Want::Class(ClassKind::Constructor, Some(2)),
    },
];

/// Refusals of instructions.
pub const CODE_ROWS: [Row; 9] = [
    // an operand is cut off
    Row {
        twist: Twist::Nothing,
        flags: 9,
        codes: [&[0, 0x10], RETURN, RETURN, RETURN, RETURN, INIT, RETURN],
        want: Want::Code(CodeKind::CutInstruction, MAIN, 1),
    },
    // a name that no field has
    Row {
        twist: Twist::Nothing,
        flags: 9,
        codes: [
            &[0xb2, 0, 47, 0xb1],
            RETURN,
            RETURN,
            RETURN,
            RETURN,
            INIT,
            RETURN,
        ],
        want: Want::Code(CodeKind::UnknownName, MAIN, 0),
    },
    // a thread is made outside of main
    Row {
        twist: Twist::Nothing,
        flags: 9,
        codes: [
            &[0xb8, 0, 47, 0xb1],
            &[0xbb, 0, 6, 0x57, 0xb1],
            RETURN,
            RETURN,
            RETURN,
            INIT,
            RETURN,
        ],
        want: Want::Code(CodeKind::ForbiddenCall, A, 0),
    },
    // a final field is read
    Row {
        twist: Twist::Final,
        flags: 9,
        codes: [
            &[0xb2, 0, 32, 0x57, 0xb1],
            RETURN,
            RETURN,
            RETURN,
            RETURN,
            INIT,
            RETURN,
        ],
        want: Want::Code(CodeKind::FinalAccess, MAIN, 0),
    },
    // a method calls itself by another
    Row {
        twist: Twist::Nothing,
        flags: 9,
        codes: [
            &[0xb8, 0, 47, 0xb1],
            &[0xb8, 0, 51, 0xb1],
            &[0, 0xb8, 0, 47, 0xb1],
            RETURN,
            RETURN,
            INIT,
            RETURN,
        ],
        want: Want::Code(CodeKind::Recursion, A, 0),
    },
    // a thread is made in a loop
    Row {
        twist: Twist::Nothing,
        flags: 9,
        codes: [
            &[0xbb, 0, 6, 0x57, 0xa7, 0xff, 0xfc],
            RETURN,
            RETURN,
            RETURN,
            RETURN,
            INIT,
            RETURN,
        ],
        want: Want::Code(CodeKind::ThreadInLoop, MAIN, 0),
    },
    // an unknown number in main
    Row {
        twist: Twist::Nothing,
        flags: 9,
        codes: [&[0, 0x6c], RETURN, RETURN, RETURN, RETURN, INIT, RETURN],
        want: Want::Code(CodeKind::Opcode, MAIN, 1),
    },
    // main falls out of its code
    Row {
        twist: Twist::Nothing,
        flags: 9,
        codes: [&[0], RETURN, RETURN, RETURN, RETURN, INIT, RETURN],
        want: Want::Code(CodeKind::JumpTarget, MAIN, 0),
    },
    // main can't be typed, and N.a has an unknown number
    Row {
        twist: Twist::Nothing,
        flags: 9,
        codes: [
            &[0x57, 0xb8, 0, 48, 0xb1],
            RETURN,
            RETURN,
            &[0x6c],
            RETURN,
            INIT,
            RETURN,
        ],
        want: Want::Code(CodeKind::Opcode, C, 0),
    },
];
