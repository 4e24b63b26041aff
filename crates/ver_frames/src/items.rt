//! The types that the items of a StackMapTable say (JVMS 4.7.4).

ghost use Rattle.std.specs.Prelude.{◌≡◌, ◌≤◌, IfOk, IfSome, MatchOption, None, Some};
ghost use Rattle.ver_frames.specs.Chains.{Keeps, Stands, types_of};
ghost use Rattle.ver_frames.specs.Gives.{Finds};
ghost use Rattle.ver_frames.specs.StackMap.{item, items, with_front};
ghost use Rattle.ver_frames.specs.StackMapFormat.{made_type, object_type};
ghost use Rattle.std.specs.List.Sorted.{IsStrictlyIncreasing};

use super::chain::{TypeChain, TypeNodes};
use super::layout::u2;
use super::{MethodView, VType};
use std::alloc::AllocError;

// The type that a Class entry of the constant pool says: an array of ints, or a class of the set.
#[tactic(auto, unfolding(crate::specs::StackMapFormat::object_type))]
fn object_type(method: &MethodView, index: u16) -> Option<VType>
    ensures { result ≡ object_type method.now index }
{
    let name = method.class.file.pool.class(index)?;
    if name.is(b"[I") {
        return Some(VType::IntArray);
    }
    let class = method.classes.number(name.as_bytes())?;
    Some(VType::Object(class))
}

// The type of what the `new` at an offset of the method makes.
#[tactic(auto, unfolding(crate::specs::StackMapFormat::made_type))]
fn made_type(method: &MethodView, offset: u16) -> Option<VType>
    requires { IsStrictlyIncreasing method.now.linked.offsets }
    ensures { result ≡ made_type method.now offset }
{
    match method.made_at(offset) {
        Some(_) => Some(VType::Uninitialized(offset)),
        None => None,
    }
}

// The type that an item says, and the bytes after it.
#[tactic(auto, unfolding(crate::specs::StackMap::item))]
fn item<'a>(method: &MethodView, bytes: &'a [u8]) -> Option<(VType, &'a [u8])>
    requires { IsStrictlyIncreasing method.now.linked.offsets }
    ensures { Finds (λ x. (x.0, x.1.now)) result (item method.now bytes.now) }
{
    match bytes {
        [] => None,
        [0, rest @ ..] => Some((VType::Top, rest)),
        [1, rest @ ..] => Some((VType::Int, rest)),
        [5, rest @ ..] => Some((VType::Null, rest)),
        [6, rest @ ..] => Some((VType::UninitializedThis, rest)),
        [7, rest @ ..] => {
            let (index, rest) = u2(rest)?;
            Some((object_type(method, index)?, rest))
        }
        [8, rest @ ..] => {
            let (offset, rest) = u2(rest)?;
            Some((made_type(method, offset)?, rest))
        }
        _ => None,
    }
}

// The chain with the types that `count` items say at its end, and the bytes after them: `None` if
// an item says none.
pub(crate) fn append_items<'a>(
    nodes: &mut TypeNodes,
    chain: TypeChain,
    method: &MethodView,
    count: u16,
    bytes: &'a [u8],
) -> Result<Option<(TypeChain, &'a [u8])>, AllocError>
    requires rising { IsStrictlyIncreasing method.now.linked.offsets }
    requires stands { Stands nodes.old chain }
    requires few { chain.count ≤ 65535 }
    ensures items { IfOk result (λ found. MatchOption found
        (items method.now count bytes.now ≡ None)
        (λ x. with_front (types_of nodes.old chain) (items method.now count bytes.now) ≡ Some (types_of nodes.new x.0, x.1.now))) }
    ensures stands { IfOk result (λ found. IfSome found (λ x. Stands nodes.new x.0)) }
    ensures kept { Keeps nodes.old nodes.new }
{
    let mut longer = chain;
    let mut rest = bytes;
    for _ in 0..count {
        let Some((kind, after)) = item(method, rest) else {
            return Ok(None);
        };
        longer = nodes.append(longer, kind)?;
        rest = after;
    }
    Ok(Some((longer, rest)))
}
