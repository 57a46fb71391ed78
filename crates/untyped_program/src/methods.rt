//! The reached methods before they are typed.

ghost use Rattle.std.specs.Prelude.{◌≡◌, All, IfOk, IsSome, Some, slice_get};
ghost use Rattle.class_names.specs.Members.{body_of};
ghost use Rattle.std.specs.Option.{option_map};
ghost use Rattle.untyped_program.specs.Descriptors.{spelled};
ghost use Rattle.untyped_program.specs.Known.{IsKnownMethod, AreKnown, AreNumbered};
ghost use Rattle.untyped_program.specs.Methods.{entry_of, signature_by, own_monitor, frame_of, IsUntypedMethod};
ghost use Rattle.untyped_program.specs.Monitors.{names_by};
ghost use Rattle.untyped_program.specs.Tables.{HasNumberFor, number_in};
ghost use Rattle.untyped_program.specs.Untyped.{AreUntyped};

use crate::monitors::{MonitorNames, locks_class};
use crate::order::is_method;
use crate::signature::{Signature, signature_of};
use crate::symbols::{Names, short};
use class_format::{ClassRecord, CodeBody, Member};
use class_names::{STATIC, body_of, has_flag, member_descriptor, name_of};
use opcodes::Listing;
use ports::Memory;
use program::{Frame, Items, MethodId};
use reached_methods::ReachedMethod;
use std::alloc::Global;
use typing::{Entry, UntypedMethod};

/// What stands in the first locals of a method.
fn entry_of(is_main: bool, method: &Member) -> Entry
    ensures { result ≡ entry_of is_main method.now }
{
    if is_main {
        Entry::Main
    } else if has_flag(method.flags, STATIC) {
        Entry::Static
    } else {
        Entry::Run
    }
}

/// What a method takes and returns.
fn signature_by(entry: Entry, descriptor: &[u8]) -> Option<Signature>
    ensures { option_map spelled result ≡ signature_by entry descriptor.now }
{
    match entry {
        Entry::Static => signature_of(descriptor),
        Entry::Main | Entry::Run => Some(Signature {
            parameters: 1,
            result: false,
        }),
    }
}

/// The number of the monitor of a method that locks its class.
fn own_monitor(
    monitors: &MonitorNames,
    class: &ClassRecord,
    method: &Member,
) -> Result<Option<u32>, Memory>
    ensures { IfOk result (λ number. number ≡ own_monitor class.now method.now monitors.now) }
{
    if locks_class(method) {
        monitors.number_of(name_of(class))
    } else {
        Ok(None)
    }
}

/// The frame of a method with this code.
fn frame_of(body: &CodeBody, signature: Signature, monitor: Option<u32>) -> Result<Frame, Memory>
    ensures { IfOk result (λ frame. frame ≡ frame_of body.now (spelled signature) monitor) }
{
    let parameters = short(signature.parameters)?;
    Ok(Frame {
        max_locals: u32::from(body.max_locals),
        max_stack: u32::from(body.max_stack),
        parameters,
        result: signature.result,
        monitor,
    })
}

/// The class at a place.
fn class_at(classes: &[ClassRecord], at: u32) -> &ClassRecord
    requires { IsSome (slice_get classes.now at) }
    ensures { slice_get classes.now at ≡ Some result.now }
{
    let Some(class) = classes.get(at as usize) else {
        unreachable!()
    };
    class
}

/// The method of a class at a place.
fn method_at(class: &ClassRecord, at: u32) -> &Member
    requires { IsSome (slice_get class.now.methods at) }
    ensures { slice_get class.now.methods at ≡ Some result.now }
{
    let Some(method) = class.methods.get(at as usize) else {
        unreachable!()
    };
    method
}

/// The code of a method that has some.
fn code_of(method: &Member) -> &CodeBody
    requires { IsSome (body_of method.now) }
    ensures { body_of method.now ≡ Some result.now }
{
    let Some(body) = body_of(method) else {
        unreachable!()
    };
    body
}

/// The same listing once more.
fn copied(listing: &Listing) -> Result<Listing, Memory>
    ensures { IfOk result (λ copy. copy ≡ listing.now) }
{
    match listing.clone() {
        Ok(copy) => Ok(copy),
        Err(_) => Err(Memory),
    }
}

impl Names<'_, '_> {
    /// A reached method before it is typed.
    fn untyped(
        &self,
        alloc: Global,
        main: MethodId,
        method: &ReachedMethod,
    ) -> Result<UntypedMethod, Memory>
        requires known { IsKnownMethod self.now.classes.now main method.now }
        requires numbers { All (HasNumberFor self.now.numbers.items) method.now.targets }
        requires monitors { AreNumbered self.now.monitors (names_by self.now.classes.now method.now) }
        ensures { IfOk result (λ u. IsUntypedMethod self.now.classes.now main (number_in self.now.numbers.items) self.now.monitors method.now u) }
    {
        let class = class_at(self.classes, method.id.class);
        let member = method_at(class, method.id.method);
        let body = code_of(member);
        let entry = entry_of(is_method(method.id, main), member);
        let Some(signature) = signature_by(entry, member_descriptor(&class.pool, member)) else {
            unreachable!()
        };
        let monitor = own_monitor(&self.monitors, class, member)?;
        let frame = frame_of(body, signature, monitor)?;
        let symbols = self.symbols(alloc, &class.pool, method.targets.as_slice())?;
        let listing = copied(&method.listing)?;
        Ok(UntypedMethod {
            id: method.id,
            entry,
            frame,
            listing,
            symbols,
        })
    }

    /// All of them, in the same order.
    pub fn untyped_methods(
        &self,
        alloc: Global,
        main: MethodId,
        methods: &[ReachedMethod],
    ) -> Result<Items<UntypedMethod>, Memory>
        requires known { AreKnown self.now.classes.now main methods.now }
        requires numbers { All (λ m. All (HasNumberFor self.now.numbers.items) m.targets) methods.now }
        requires monitors { All (λ m. AreNumbered self.now.monitors (names_by self.now.classes.now m)) methods.now }
        ensures { IfOk result (λ us. AreUntyped self.now.classes.now main (number_in self.now.numbers.items) self.now.monitors methods.now us) }
    {
        let mut untyped = Items::new(alloc);
        for method in methods {
            let one = self.untyped(alloc, main, method)?;
            untyped.push(one)?;
        }
        Ok(untyped)
    }
}
