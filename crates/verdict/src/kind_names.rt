//! The names of kinds of refusals.

ghost use Rattle.std.specs.Prelude.{◌≡◌, MatchOption};
ghost use Rattle.std.specs.Fmt.{decimal};
ghost use Rattle.verdict.specs.KindNames.{greatest_of, name_of_class_kind, name_of_code_kind, name_of_limit_kind, name_of_type_kind};
ghost use Rattle.verdict.specs.OutputText.{fault_name};

use class_profile::ClassKind;
use reached_methods::CodeKind;
use typing::TypeKind;
use untyped_program::LimitKind;

/// The name of a fault of a class file, by its number (docs/PROFILE.md, "Refusals of class files"). Other numbers have none.
pub(crate) fn fault_name(kind: u8) -> Option<&'static [u8]>
    ensures { MatchOption result (fault_name kind ≡ decimal kind) (λ name. name.now ≡ fault_name kind) }
{
    match kind {
        1 => Some(b"Truncated"),
        2 => Some(b"Magic"),
        3 => Some(b"Version"),
        4 => Some(b"PoolTag"),
        5 => Some(b"PoolIndex"),
        6 => Some(b"AttributeLength"),
        7 => Some(b"CodeLength"),
        8 => Some(b"Trailing"),
        _ => None,
    }
}

/// The name of a fault of classes.
pub(crate) fn name_of_class_kind(kind: ClassKind) -> &'static [u8]
    ensures { result.now ≡ name_of_class_kind kind }
{
    match kind {
        ClassKind::DuplicateClass => b"DuplicateClass",
        ClassKind::NoMain => b"NoMain",
        ClassKind::ClassInit => b"ClassInit",
        ClassKind::InstanceField => b"InstanceField",
        ClassKind::FieldType => b"FieldType",
        ClassKind::Constructor => b"Constructor",
        ClassKind::ThreadClass => b"ThreadClass",
        ClassKind::NameForm => b"NameForm",
    }
}

/// The name of a fault of an instruction.
pub(crate) fn name_of_code_kind(kind: CodeKind) -> &'static [u8]
    ensures { result.now ≡ name_of_code_kind kind }
{
    match kind {
        CodeKind::Opcode => b"Opcode",
        CodeKind::CutInstruction => b"CutInstruction",
        CodeKind::JumpTarget => b"JumpTarget",
        CodeKind::UnknownName => b"UnknownName",
        CodeKind::ForbiddenCall => b"ForbiddenCall",
        CodeKind::FinalAccess => b"FinalAccess",
        CodeKind::Recursion => b"Recursion",
        CodeKind::ThreadInLoop => b"ThreadInLoop",
    }
}

/// The name of a fault of types.
pub(crate) fn name_of_type_kind(kind: TypeKind) -> &'static [u8]
    ensures { result.now ≡ name_of_type_kind kind }
{
    match kind {
        TypeKind::TypeMisfit => b"TypeMisfit",
        TypeKind::StackDepth => b"StackDepth",
        TypeKind::LockOperand => b"LockOperand",
        TypeKind::Unstructured => b"Unstructured",
        TypeKind::ThreadState => b"ThreadState",
    }
}

/// The name of a limit of programs.
pub(crate) fn name_of_limit_kind(kind: LimitKind) -> &'static [u8]
    ensures { result.now ≡ name_of_limit_kind kind }
{
    match kind {
        LimitKind::Threads => b"Threads",
        LimitKind::Variables => b"Variables",
        LimitKind::FrameSlots => b"FrameSlots",
    }
}

/// The greatest number that a limit accepts.
pub(crate) fn greatest_of(kind: LimitKind) -> u64
    ensures { result ≡ greatest_of kind }
{
    match kind {
        LimitKind::Threads => 8,
        LimitKind::Variables => 16,
        LimitKind::FrameSlots => 16,
    }
}
