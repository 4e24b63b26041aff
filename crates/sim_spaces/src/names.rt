//! What the spaces of a program are asked for by name.

ghost use Rattle.std.specs.Prelude.{◌≡◌, ◌⊎◌, None, Some, Contains, IfOk, IsTrue};
ghost use Rattle.cls_set.specs.Classes.{name_at};
ghost use Rattle.sp_core.specs.Shown as core;
ghost use Rattle.sp_files.specs.Names.{NamesMethod};
ghost use Rattle.sim_spaces.specs.ProgramSpaces.{shown_of};

use cf_reader::Flags;
use sim_worlds::Shown;
use sp_events::{CoreFault, StartFault};
use sp_files::find_named;
use space_ids::ClassId;
use std::alloc::Global;
use vm_step::{MethodId, Program};

/// The number of a method, by the name of a class that has or inherits it (JVMS 5.4.3.3), and by its own name and
/// descriptor; or by its name alone, if the class declares exactly one static method of this name. A fault of starts if
/// there is none. A text with a parenthesis has a descriptor.
pub fn method_of(
    alloc: Global,
    program: &Program,
    class: &str,
    method: &str,
) -> Result<u32, CoreFault>
    ensures { Contains method.now 40 → IfOk result (λ number.
        NamesMethod program.now class.now method.now (Some (record { 0 = number }))) }
{
    let (class, method) = (class.as_bytes(), method.as_bytes());
    if has_descriptor(method) {
        return whole_method(alloc, program, class, method);
    }
    let Some(descriptor) = alone_descriptor(program, class, method) else {
        return Err(CoreFault::Start(StartFault::AbsentMethod));
    };
    let mut whole = method.to_vec(alloc)?;
    whole.extend_from_slice(descriptor)?;
    whole_method(alloc, program, class, &whole)
}

// Whether a text has a parenthesis.
fn has_descriptor(text: &[u8]) -> bool
    ensures { Contains text.now 40 → IsTrue result }
{
    text.contains(&b'(')
}

// The number of a method, by its name and descriptor.
fn whole_method(
    alloc: Global,
    program: &Program,
    class: &[u8],
    method: &[u8],
) -> Result<u32, CoreFault>
    ensures { IfOk result (λ number.
        NamesMethod program.now class.now method.now (Some (record { 0 = number }))) }
{
    match find_named(alloc, program, class, method)? {
        Some(MethodId(number)) => Ok(number),
        None => Err(CoreFault::Start(StartFault::AbsentMethod)),
    }
}

// The descriptor of the only static method of a name that a class declares, if there is just one.
fn alone_descriptor<'p>(program: &'p Program, class: &[u8], name: &[u8]) -> Option<&'p [u8]> {
    let set = program.linked().set();
    let class = set.class(set.number(class)?);
    let methods = class.file.methods.as_slice();
    let mut named = methods.iter().filter(|method| method.flags.has(Flags::STATIC)
        && method.name.as_bytes() == name);
    match (named.next(), named.next()) {
        (Some(only), None) => Some(only.descriptor.as_bytes()),
        _ => None,
    }
}

/// The name of a class, or no name for one that is not in the set.
pub fn class_name_of(program: &Program, class: ClassId) -> &[u8]
    ensures { Some result.now
        ≡ name_at program.now.classes class ⊎ (name_at program.now.classes class ≡ None) }
{
    let set = program.linked().set();
    if usize::from(class.0) < set.len() {
        set.name(class).as_bytes()
    } else {
        b""
    }
}

/// A standing object of a core as scripts show it.
pub fn shown_as(shown: &sp_core::Shown) -> Shown
    ensures { shown_of result ≡ core.shown_of shown.now }
{
    Shown {
        id: shown.id,
        class: shown.class,
        names: shown.names,
        entries: shown.entries,
    }
}
