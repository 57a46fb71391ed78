//! What is asked of the classes of threads.

ghost use Rattle.std.specs.Prelude.{◌≡◌, ◌↔◌, All, Any, IsTrue, codes, count_by};
ghost use Rattle.class_names.specs.Names.{method_at};
ghost use Rattle.class_names.specs.Members.{IsSpelled, IsThreadClass, parent_name, object_name};
ghost use Rattle.class_profile.specs.Threads.{is_constructor, is_thread_constructor, IsThreadInit, IsThreadInitCode, IsPlainConstructor, HasOneConstructor, HasPlainConstructor, IsRun, IsRunnable, HasPlainKind};

use class_format::{Attribute, ClassRecord, Member, PoolEntries, PoolEntry, entry_at};
use class_names::{
    ABSTRACT, Expected, INTERFACE, Reference, STATIC, SYNCHRONIZED, extends, has_code, has_flag,
    is_reference, is_spelled, is_thread_class, member_name, same_text,
};

/// The codes of the three instructions of a plain constructor (JVMS 6).
const ALOAD_0: u8 = 0x2a;

const INVOKESPECIAL: u8 = 0xb7;

const RETURN: u8 = 0xb1;

/// Whether the entry with this number is java/lang/Thread.<init>()V.
fn is_thread_constructor(pool: &PoolEntries, index: u16) -> bool
    ensures { result ≡ is_thread_constructor (method_at pool.now index) }
{
    match entry_at(pool, index) {
        Some(PoolEntry::Method(class, name_and_type)) => is_reference(
            pool,
            Reference {
                class: *class,
                name_and_type: *name_and_type,
            },
            &Expected {
                class: b"java/lang/Thread",
                name: b"<init>",
                descriptor: b"()V",
            },
        ),
        _ => false,
    }
}

/// Whether code calls the constructor of java/lang/Thread and nothing else.
fn is_thread_init(pool: &PoolEntries, code: &[u8]) -> bool
    ensures { IsTrue result ↔ IsThreadInit pool.now code.now }
{
    match code {
        [ALOAD_0, INVOKESPECIAL, high, low, RETURN] => {
            is_thread_constructor(pool, u16::from(*high) * 256 + u16::from(*low))
        }
        _ => false,
    }
}

/// Whether an attribute is a Code attribute with that code.
fn is_thread_init_code(pool: &PoolEntries, attribute: &Attribute) -> bool
    ensures { IsTrue result ↔ IsThreadInitCode pool.now attribute.now }
{
    match attribute {
        Attribute::Code(body) => is_thread_init(pool, body.code.as_slice()),
        Attribute::Other { .. } => false,
    }
}

/// Whether a method is a constructor.
fn is_constructor(pool: &PoolEntries, method: &Member) -> bool
    ensures { result ≡ is_constructor pool.now method.now }
{
    same_text(member_name(pool, method), b"<init>")
}

/// Whether a method is the plain constructor.
fn is_plain_constructor(pool: &PoolEntries, method: &Member) -> bool
    ensures { IsTrue result ↔ IsPlainConstructor pool.now method.now }
{
    is_spelled(pool, b"<init>", b"()V", method)
        && method
            .attributes
            .as_slice()
            .iter()
            .any(|attribute| is_thread_init_code(pool, attribute))
}

/// How many constructors a class has.
fn constructors(class: &ClassRecord) -> usize
    ensures { result ≡ count_by (is_constructor class.now.pool) class.now.methods }
{
    class
        .methods
        .as_slice()
        .iter()
        .filter(|method| is_constructor(&class.pool, *method))
        .count()
}

/// Whether a class has one constructor, which is plain.
fn has_one_constructor(class: &ClassRecord) -> bool
    ensures { IsTrue result ↔ HasOneConstructor class.now }
{
    constructors(class) == 1
        && class
            .methods
            .as_slice()
            .iter()
            .any(|method| is_plain_constructor(&class.pool, method))
}

/// Whether a class, if it is a thread class, has one constructor, which is plain.
pub fn has_plain_constructor(class: &ClassRecord) -> bool
    ensures { IsTrue result ↔ HasPlainConstructor class.now }
{
    !is_thread_class(class) || has_one_constructor(class)
}

/// Whether a method is the run of a thread.
fn is_run(pool: &PoolEntries, method: &Member) -> bool
    ensures { IsTrue result ↔ IsRun pool.now method.now }
{
    is_spelled(pool, b"run", b"()V", method)
        && !has_flag(method.flags, STATIC)
        && !has_flag(method.flags, SYNCHRONIZED)
        && has_code(method)
}

/// Whether a class has a run, and leaves start to its superclass.
fn is_runnable(class: &ClassRecord) -> bool
    ensures { IsTrue result ↔ IsRunnable class.now }
{
    let methods = class.methods.as_slice();
    !has_flag(class.flags, ABSTRACT)
        && methods.iter().all(|method| !is_spelled(&class.pool, b"start", b"()V", method))
        && methods.iter().any(|method| is_run(&class.pool, method))
}

/// Whether a class is a thread class as it has to be, or extends java/lang/Object, and is no interface.
pub fn has_plain_kind(class: &ClassRecord) -> bool
    ensures { IsTrue result ↔ HasPlainKind class.now }
{
    if has_flag(class.flags, INTERFACE) {
        return false;
    }
    if is_thread_class(class) {
        return is_runnable(class);
    }
    extends(class, b"java/lang/Object")
}
