//! Checking every method of a linked class set.

ghost use Rattle.std.specs.Prelude.{◌≡◌, ◌<◌, IfErr, IfOk, IfSome, IsSomeAnd, OnOk, length};
ghost use Rattle.cls_link.specs.Links.{AreLinks};
ghost use Rattle.ver_check.specs.Acceptance.{AreSafe, IsSafe, IsSafeAt, IsSafeMethod, subject_of};
ghost use Rattle.ver_check.specs.Listed.{IsListed};
ghost use Rattle.ver_check.specs.Faults.{IsCheckFault, IsMethodFault, IsNamed};
ghost use Rattle.ver_check.specs.Refusals.{IsFaultAt, IsFaultOf, Names};
ghost use Rattle.ver_check.specs.Settled.{SettlesBody};

use super::body::BodyView;
use super::check::BodyFault;
use super::indices::find_frames;
use super::{
    CheckFault, CheckRule, ClassSet, Linked, LinkedMethod, MethodId, MethodView, StackMapFault,
    Text,
};
use std::alloc::{AllocError, Global};
use ver_frames::declared;

// The method as checking sees it: `None` if it has no code.
#[tactic(auto, unfolding(crate::specs::Acceptance::subject_of))]
fn view_of<'a>(classes: &'a ClassSet, method: &'a LinkedMethod) -> Option<MethodView<'a>>
    ensures { result ≡ subject_of classes.now method.now }
{
    let Some(linked) = &method.code else {
        return None;
    };
    if usize::from(method.class.0) >= classes.len() {
        return None;
    }
    let class = classes.class(method.class);
    let declaration = class
        .file
        .methods
        .as_slice()
        .get(usize::from(method.index))?;
    let Some(code) = &*declaration.code else {
        return None;
    };
    Some(MethodView {
        classes,
        class_id: method.class,
        class,
        method: declaration,
        code,
        linked,
    })
}

// Whether a method with code is type safe.
fn check_code(alloc: Global, method: &MethodView) -> Result<(), BodyFault>
    requires { IsListed method.now.linked }
    ensures { SettlesBody result (λ _. IsSafe method.now) (IsMethodFault method.now) }
{
    let frames = match declared(alloc, method) {
        Ok(frames) => frames,
        Err(StackMapFault::Broken { rule, at }) => {
            return Err(BodyFault::Broken {
                rule: CheckRule::StackMap(rule),
                at,
            });
        }
        Err(StackMapFault::Memory) => return Err(BodyFault::Memory),
    };
    let offsets = method.linked.offsets.as_slice();
    let indices = find_frames(alloc, offsets, &frames)?;
    let body = BodyView {
        alloc,
        method,
        declared: &frames,
        indices: &indices,
    };
    body.check(alloc)
}

// Whether a method is type safe.
fn check_method(alloc: Global, classes: &ClassSet, method: &LinkedMethod) -> Result<(), CheckFault>
    requires { IfSome method.now.code IsListed }
    ensures ok { OnOk result (IsSafeMethod classes.now method.now) }
    ensures fault { IfErr result (λ fault. IsSomeAnd (subject_of classes.now method.now) (λ m. IsFaultOf m fault)) }
{
    let Some(view) = view_of(classes, method) else {
        return Ok(());
    };
    match check_code(alloc, &view) {
        Ok(()) => Ok(()),
        Err(fault) => Err(named(fault, &view)),
    }
}

// Whether the method at an index is type safe.
fn check_at(alloc: Global, linked: &Linked, index: usize) -> Result<(), CheckFault>
    requires inside { index < length linked.now.methods }
    requires links { AreLinks linked.now }
    ensures ok { OnOk result (IsSafeAt linked.now index) }
    ensures fault { IfErr result (IsFaultAt linked.now index) }
{
    // There are no more methods than numbers of methods.
    let method = linked.linked_method(MethodId(index as u32));
    check_method(alloc, linked.set(), method)
}

// Whether all methods are type safe.
pub(crate) fn check_all(alloc: Global, linked: &Linked) -> Result<(), CheckFault>
    ensures ok { OnOk result (AreSafe linked.now) }
    ensures fault { IfErr result (IsCheckFault linked.now) }
{
    for index in 0..linked.len() {
        check_at(alloc, linked, index)?;
    }
    Ok(())
}

// The fault of a method, with its names.
fn named(fault: BodyFault, view: &MethodView) -> CheckFault
    ensures { Names view.now fault result }
{
    let BodyFault::Broken { rule, at } = fault else {
        return CheckFault::Memory;
    };
    match copies(view) {
        Ok((class, method, descriptor)) => CheckFault::Broken {
            rule,
            class,
            method,
            descriptor,
            at,
        },
        Err(AllocError) => CheckFault::Memory,
    }
}

// Copies of the names of a method's class, of itself and of its descriptor.
fn copies(view: &MethodView) -> Result<(Text, Text, Text), AllocError>
    ensures { IfOk result (λ names. IsNamed view.now names.0 names.1 names.2) }
{
    let class = view.class.file.name.copy()?;
    let method = view.method.name.copy()?;
    let descriptor = view.method.descriptor.copy()?;
    Ok((class, method, descriptor))
}
