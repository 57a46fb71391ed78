//! Classes whose objects can be the target of a thread (docs/PROFILE.md, "Targets").

ghost use Rattle.std.specs.Prelude.{◌≡◌, count_by};
ghost use Rattle.std.specs.List.{list_any};
ghost use Rattle.class_format.specs.ClassText.{is_code};
ghost use Rattle.class_names.specs.Names.{method_at};
ghost use Rattle.class_names.specs.Members as members;
ghost use Rattle.resolution.specs.Targets.{is_constructor, is_object_constructor, is_plain_code, has_plain_code, is_plain_constructor, is_run, is_runnable_name, is_target};

use class_format::{ClassRecord, Member, PoolEntries, PoolEntry, entry_at};
use class_names::{
    ABSTRACT, Expected, Reference, STATIC, SYNCHRONIZED, body_of, class_name_of, has_code,
    has_flag, is_reference, member_descriptor, member_name, same_text,
};

/// The codes of the instructions of a plain constructor (JVMS 6).
const ALOAD_0: u8 = 0x2a;

const INVOKESPECIAL: u8 = 0xb7;

const RETURN: u8 = 0xb1;

/// Whether a method has a Code attribute.
fn is_coded(method: &Member) -> bool
    ensures { result ≡ list_any is_code method.now.attributes }
{
    has_code(method)
}

/// Whether a method is the run of a thread.
pub fn is_run(pool: &PoolEntries, method: &Member) -> bool
    ensures { result ≡ is_run pool.now method.now }
{
    same_text(member_name(pool, method), b"run")
        && same_text(member_descriptor(pool, method), b"()V")
        && !has_flag(method.flags, STATIC)
        && !has_flag(method.flags, SYNCHRONIZED)
        && is_coded(method)
}

/// Whether the entry with this number is `java/lang/Object.<init>()V`.
fn is_object_constructor(pool: &PoolEntries, index: u16) -> bool
    ensures { result ≡ is_object_constructor (method_at pool.now index) }
{
    match entry_at(pool, index) {
        Some(PoolEntry::Method(class, name_and_type)) => is_reference(
            pool,
            Reference {
                class: *class,
                name_and_type: *name_and_type,
            },
            &Expected {
                class: b"java/lang/Object",
                name: b"<init>",
                descriptor: b"()V",
            },
        ),
        _ => false,
    }
}

/// Whether code calls the constructor of `java/lang/Object` and does nothing else.
fn is_plain_code(pool: &PoolEntries, code: &[u8]) -> bool
    ensures { result ≡ is_plain_code pool.now code.now }
{
    match code {
        [first, second, high, low, last] => {
            *first == ALOAD_0
                && *second == INVOKESPECIAL
                && *last == RETURN
                && is_object_constructor(pool, u16::from(*high) * 256 + u16::from(*low))
        }
        _ => false,
    }
}

/// Whether a method has that code.
fn has_plain_code(pool: &PoolEntries, method: &Member) -> bool
    ensures { result ≡ has_plain_code pool.now (members.body_of method.now) }
{
    match body_of(method) {
        Some(body) => is_plain_code(pool, body.code.as_slice()),
        None => false,
    }
}

/// Whether a method is a constructor.
fn is_constructor(pool: &PoolEntries, method: &Member) -> bool
    ensures { result ≡ is_constructor pool.now method.now }
{
    same_text(member_name(pool, method), b"<init>")
}

/// Whether a method is the plain constructor.
fn is_plain_constructor(pool: &PoolEntries, method: &Member) -> bool
    ensures { result ≡ is_plain_constructor pool.now method.now }
{
    is_constructor(pool, method)
        && same_text(member_descriptor(pool, method), b"()V")
        && has_plain_code(pool, method)
}

/// Whether a Class entry is that of `java/lang/Runnable`.
fn is_runnable_name(pool: &PoolEntries, index: u16) -> bool
    ensures { result ≡ is_runnable_name pool.now index }
{
    same_text(class_name_of(pool, index), b"java/lang/Runnable")
}

/// Whether a class names `java/lang/Runnable` among its interfaces.
fn is_runnable(class: &ClassRecord) -> bool
    ensures { result ≡ list_any (is_runnable_name class.now.pool) class.now.interfaces }
{
    class
        .interfaces
        .as_slice()
        .iter()
        .any(|index| is_runnable_name(&class.pool, *index))
}

/// How many constructors a class has.
fn constructors(class: &ClassRecord) -> usize
    ensures { result ≡ count_by (is_constructor class.now.pool) class.now.methods }
{
    class
        .methods
        .as_slice()
        .iter()
        .filter(|method| is_constructor(&class.pool, *method))
        .count()
}

/// Whether a class has a plain constructor.
fn has_plain_constructor(class: &ClassRecord) -> bool
    ensures { result ≡ list_any (is_plain_constructor class.now.pool) class.now.methods }
{
    class
        .methods
        .as_slice()
        .iter()
        .any(|method| is_plain_constructor(&class.pool, method))
}

/// Whether a class has a run.
fn has_run(class: &ClassRecord) -> bool
    ensures { result ≡ list_any (is_run class.now.pool) class.now.methods }
{
    class
        .methods
        .as_slice()
        .iter()
        .any(|method| is_run(&class.pool, method))
}

/// Whether a class is a target class.
pub fn is_target(class: &ClassRecord) -> bool
    ensures { result ≡ is_target class.now }
{
    same_text(
        class_name_of(&class.pool, class.parent),
        b"java/lang/Object",
    ) && is_runnable(class)
        && !has_flag(class.flags, ABSTRACT)
        && constructors(class) == 1
        && has_plain_constructor(class)
        && has_run(class)
}
