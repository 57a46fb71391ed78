use class_format::FormatRefusal;
use class_profile::*;
use std::alloc::Global;
use std::test::Fail;

mod classes;
mod data;

use classes::*;
use data::{Class, record};

/// Classes, and the refusal that comes of them.
struct Row {
    classes: &'static [&'static Class],
    refusal: Option<(ClassKind, Option<u32>)>,
}

const ROWS: [Row; 34] = [
    Row {
        classes: &[&M, &T, &ODD, &LONGEST],
        refusal: None,
    },
    Row {
        classes: &[&T, &M, &T],
        refusal: Some((ClassKind::DuplicateClass, Some(2))),
    },
    Row {
        classes: &[&M, &T, &T, &M],
        refusal: Some((ClassKind::DuplicateClass, Some(2))),
    },
    Row {
        classes: &[&INITIALIZED, &T, &T],
        refusal: Some((ClassKind::DuplicateClass, Some(2))),
    },
    Row {
        classes: &[],
        refusal: Some((ClassKind::NoMain, None)),
    },
    Row {
        classes: &[&NO_MAIN, &NATIVE_MAIN, &ODD],
        refusal: Some((ClassKind::NoMain, None)),
    },
    Row {
        classes: &[&M, &T, &M2],
        refusal: Some((ClassKind::NoMain, None)),
    },
    Row {
        classes: &[&TWO_MAINS],
        refusal: Some((ClassKind::NoMain, None)),
    },
    Row {
        classes: &[&M2, &NO_MAIN, &NATIVE_MAIN],
        refusal: None,
    },
    Row {
        classes: &[&OBJECTS, &M, &INITIALIZED],
        refusal: Some((ClassKind::ClassInit, Some(2))),
    },
    Row {
        classes: &[&LONG, &M, &OBJECTS],
        refusal: Some((ClassKind::InstanceField, Some(2))),
    },
    Row {
        classes: &[&M, &NO_INIT, &SEVEN, &LONG],
        refusal: Some((ClassKind::FieldType, Some(2))),
    },
    Row {
        classes: &[&M, &LONG, &SEVEN],
        refusal: Some((ClassKind::FieldType, Some(1))),
    },
    Row {
        classes: &[&M, &NO_INIT],
        refusal: Some((ClassKind::Constructor, Some(1))),
    },
    Row {
        classes: &[&M, &TWO_INITS],
        refusal: Some((ClassKind::Constructor, Some(1))),
    },
    Row {
        classes: &[&M, &INT_INIT],
        refusal: Some((ClassKind::Constructor, Some(1))),
    },
    Row {
        classes: &[&M, &LONG_INIT],
        refusal: Some((ClassKind::Constructor, Some(1))),
    },
    Row {
        classes: &[&M, &OTHER_INIT],
        refusal: Some((ClassKind::Constructor, Some(1))),
    },
    Row {
        classes: &[&M, &CHILD, &NATIVE_INIT],
        refusal: Some((ClassKind::Constructor, Some(2))),
    },
    Row {
        classes: &[&M, &UNNAMED, &CHILD],
        refusal: Some((ClassKind::ThreadClass, Some(2))),
    },
    Row {
        classes: &[&M, &INTERFACE],
        refusal: Some((ClassKind::ThreadClass, Some(1))),
    },
    Row {
        classes: &[&M, &ABSTRACT],
        refusal: Some((ClassKind::ThreadClass, Some(1))),
    },
    Row {
        classes: &[&M, &STARTS],
        refusal: Some((ClassKind::ThreadClass, Some(1))),
    },
    Row {
        classes: &[&M, &NO_RUN],
        refusal: Some((ClassKind::ThreadClass, Some(1))),
    },
    Row {
        classes: &[&M, &STATIC_RUN],
        refusal: Some((ClassKind::ThreadClass, Some(1))),
    },
    Row {
        classes: &[&M, &SYNCHRONIZED_RUN],
        refusal: Some((ClassKind::ThreadClass, Some(1))),
    },
    Row {
        classes: &[&M, &ABSTRACT_RUN],
        refusal: Some((ClassKind::ThreadClass, Some(1))),
    },
    Row {
        classes: &[&M, &UNNAMED],
        refusal: Some((ClassKind::NameForm, Some(1))),
    },
    Row {
        classes: &[&M, &T, &DOTTED, &UNNAMED],
        refusal: Some((ClassKind::NameForm, Some(2))),
    },
    Row {
        classes: &[&M, &LIBRARY],
        refusal: Some((ClassKind::NameForm, Some(1))),
    },
    Row {
        classes: &[&M, &TOO_LONG],
        refusal: Some((ClassKind::NameForm, Some(1))),
    },
    Row {
        classes: &[&M, &BAD_FIELD],
        refusal: Some((ClassKind::NameForm, Some(1))),
    },
    Row {
        classes: &[&M, &TWO_FIELDS],
        refusal: Some((ClassKind::NameForm, Some(1))),
    },
    Row {
        classes: &[&M, &TWO_METHODS],
        refusal: Some((ClassKind::NameForm, Some(1))),
    },
];

/// The refusal of classes.
fn refusal_of(
    alloc: Global,
    classes: &[&Class],
) -> Result<Option<(ClassKind, Option<u32>)>, FormatRefusal> {
    let mut records = Vec::new(alloc);
    for class in classes {
        records
            .push(record(alloc, class)?)
            .map_err(|_| FormatRefusal::Memory)?;
    }
    if records.len() > 65535 {
        return Err(FormatRefusal::Memory);
    }
    match check_classes(alloc, &records) {
        Ok(()) => Ok(None),
        Err(ProfileRefusal::Refused { kind, class }) => Ok(Some((kind, class))),
        Err(ProfileRefusal::Memory) => Err(FormatRefusal::Memory),
    }
}

// Each row has the refusal that it says.
#[test]
fn refusals(rt: HostRuntime) -> Result<(), Fail> {
    for (at, row) in ROWS.iter().enumerate() {
        assert_eq!(rt;
            refusal_of(rt.alloc(), row.classes)?,
            row.refusal,
            "at row {at}"
        );
    }
    Ok(())
}

// The one main is found in its class, behind a method of its name.
#[test]
fn main(rt: HostRuntime) -> Result<(), Fail> {
    let classes = [
        record(rt.alloc(), &T)?,
        record(rt.alloc(), &M2)?,
        record(rt.alloc(), &NO_MAIN)?,
    ];
    let place = main_of(&classes).ok_or(FormatRefusal::Memory)?;
    assert_eq!(rt; (place.class, place.method), (1, 1));
    Ok(())
}
