use thiserror::Error;

/// What can be wrong with the classes, in the order in which it is looked for (docs/PROFILE.md, "Classes of the profile").
#[derive(Clone, Copy, Debug, PartialEq, Eq)]
pub enum ClassKind {
    /// A class has the name of an earlier one.
    DuplicateClass,
    /// There isn't exactly one main.
    NoMain,
    /// A method is named `<clinit>`.
    ClassInit,
    /// A field isn't static.
    InstanceField,
    /// A static field that isn't final is no int or boolean, or begins with a value of its own.
    FieldType,
    /// A thread class doesn't have its one plain constructor.
    Constructor,
    /// A class is no plain class and no thread class.
    ThreadClass,
    /// A name can't be written, or stands twice.
    NameForm,
}

/// Why classes are not of the profile.
#[derive(Clone, Copy, Debug, PartialEq, Eq, Drop, Error)]
pub enum ProfileRefusal {
    /// The first kind with a fault, and the place of the first class with it, from 0. NoMain has no class.
    #[error("the classes are not of the profile")]
    Refused { kind: ClassKind, class: Option<u32> },
    /// There is not enough memory.
    #[error("not enough memory")]
    Memory,
}
