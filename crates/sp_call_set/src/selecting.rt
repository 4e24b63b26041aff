//! The methods that calls of other spaces run.

ghost use Rattle.std.specs.Prelude.{◌≡◌, ◌<◌, IfSome, length, nat_le};
ghost use Rattle.sp_behaviours.specs.Remote.{method_of, selected_by};
ghost use Rattle.vm_code.specs.Methods.{interface_selected, is_public_at, selection_of, words_passed};
ghost use Rattle.sp_call_set.specs.Selecting.{has_code, run_by};

use cls_link::{Code, Flags, Linked, Method, MethodId};
use cls_tables::Tables;
use space_ids::ClassId;
use vm_code::is_subtype;
use vm_step::Program;

/// The method that a call of this one runs on an object of a class.
pub(crate) fn selected(
    program: &Program,
    tables: &Tables,
    class: ClassId,
    method: u32,
) -> Option<u32>
    requires { tables.now ≡ program.now }
    ensures { result ≡ selected_by program.now.classes class method }
{
    let linked = program.linked();
    if method as usize >= linked.len() {
        return None;
    }
    let named = MethodId(method);
    let _declared = linked.declaration(named);
    let interface = linked.linked_method(named).class;
    selected_on(linked, tables, class, interface, named)
}

// The method that a call of a named one of an interface runs on an object of a class.
fn selected_on(
    linked: &Linked,
    tables: &Tables,
    class: ClassId,
    interface: ClassId,
    named: MethodId,
) -> Option<u32>
    requires tables { tables.now ≡ linked.now }
    requires named { named.0 < length linked.now.methods }
    ensures { result ≡ method_of (interface_selected linked.now.classes class interface named) }
{
    let _methods = linked.len();
    if !is_subtype(linked.set(), class, interface) {
        return None;
    }
    match selection(linked, tables, class, named) {
        Some(found) => run_by(linked, found),
        None => None,
    }
}

// The method that a class of the set selects for a named one.
fn selection(linked: &Linked, tables: &Tables, class: ClassId, named: MethodId) -> Option<MethodId>
    requires tables { tables.now ≡ linked.now }
    requires class { class.0 < length linked.now.classes }
    requires named { named.0 < length linked.now.methods }
    ensures found { result ≡ selection_of linked.now.classes class named }
    ensures within { IfSome result (λ id. id.0 < length linked.now.methods) }
{
    let _classes = linked.set().len();
    tables.selected(class, named)
}

// The number of a selected method, if a call may run it: it is public, and has code.
fn run_by(linked: &Linked, found: MethodId) -> Option<u32>
    requires { found.0 < length linked.now.methods }
    ensures { result ≡ run_by linked.now.classes found }
{
    if is_public(linked, found) && has_code(linked, found) {
        Some(found.0)
    } else {
        None
    }
}

fn is_public(linked: &Linked, id: MethodId) -> bool
    requires { id.0 < length linked.now.methods }
    ensures { result ≡ is_public_at linked.now.classes id }
{
    linked.declaration(id).flags.has(Flags::PUBLIC)
}

// Whether a method has code whose local variables hold what it is passed.
fn has_code(linked: &Linked, id: MethodId) -> bool
    requires { id.0 < length linked.now.methods }
    ensures { result ≡ has_code linked.now.classes id }
{
    let method = linked.declaration(id);
    match &*method.code {
        Some(code) => holds_words(method, code),
        None => false,
    }
}

fn holds_words(method: &Method, code: &Code) -> bool
    ensures { result ≡ nat_le (words_passed method.now) code.now.max_locals }
{
    words_passed(method) <= code.max_locals as usize
}

// How many words a method is passed.
fn words_passed(method: &Method) -> usize
    ensures { result ≡ words_passed method.now }
{
    let count = method.types.parameters.len();
    if method.flags.has(Flags::STATIC) {
        count
    } else {
        count + 1
    }
}
