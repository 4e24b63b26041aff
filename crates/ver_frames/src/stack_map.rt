//! The frames that a StackMapTable declares (JVMS 4.7.4).

ghost use Rattle.std.specs.Prelude.{◌≡◌, ◌==◌, ◌≤◌, ℕ, List, IfOk, None, Some, Ok, length, map, if◌then◌else◌};
ghost use Rattle.std.specs.List.{AllByRecursion, list_any};
ghost use Rattle.std.specs.List.Sorted.{IsStrictlyIncreasing};
ghost use Rattle.ver_frames.specs.Chains.{FrameStands, Keeps, Stands, spelled_in, types_of};
ghost use Rattle.ver_frames.specs.Frames.{Frame};
ghost use Rattle.ver_frames.specs.Gives.{Gives};
ghost use Rattle.ver_frames.specs.Limits.{FitsMethod};
ghost use Rattle.ver_frames.specs.Method.{argument_types};
ghost use Rattle.ver_frames.specs.declared.fault.StackMapFault.TheVariants.{Broken};
ghost use Rattle.ver_frames.specs.StackMap.{declared_frames, frame, frame_after, frames, frames_of_table, is_start};
ghost use Rattle.ver_frames.specs.StackMapFormat.{DeclaresFrames};

use super::chain::{TypeChain, TypeNodes};
use super::items::append_items;
use super::layout::{added, delta, kept, operands_after, u2};
use super::raw_frame::RawFrame;
use super::{DeclaredFrames, MethodView, StackMapFault, StackMapRule};
use std::alloc::{AllocError, Global};

// The rule is broken at this offset.
fn broken<T>(rule: StackMapRule, at: usize) -> Result<T, StackMapFault>
    ensures { result ≡ Err (Broken rule at) }
{
    Err(StackMapFault::Broken { rule, at })
}

// The offset, if it is among these.
fn find_offset(offsets: &[u16], at: usize) -> Option<u16>
    requires { IsStrictlyIncreasing offsets.now }
    ensures { result ≡ (if list_any (λ start. start == at) offsets.now then Some at else None) }
{
    if at > usize::from(u16::MAX) {
        return None;
    }
    let offset = at as u16;
    match offsets.binary_search(&offset) {
        Ok(_) => Some(offset),
        Err(_) => None,
    }
}

// The offset, if an instruction stands at it.
fn start_at(method: &MethodView, at: usize) -> Option<u16>
    requires { IsStrictlyIncreasing method.now.linked.offsets }
    ensures { result ≡ (if is_start method.now at then Some at else None) }
{
    find_offset(method.linked.offsets.as_slice(), at)
}

// The frame at an offset, of this tag, after a frame with these local variables.
#[tactic(auto, using(crate::proofs::Chains::keeps_all), unfolding(crate::specs::StackMap::frame_after))]
fn frame_after<'a>(
    nodes: &mut TypeNodes,
    method: &MethodView,
    at: usize,
    before: TypeChain,
    tag: u8,
    rest: &'a [u8],
) -> Result<(RawFrame, &'a [u8]), StackMapFault>
    requires rising { IsStrictlyIncreasing method.now.linked.offsets }
    requires stands { Stands nodes.old before }
    ensures gives { Gives (λ x. (spelled_in nodes.new x.0, x.1.now)) result (frame_after method.now at (types_of nodes.old before) tag rest.now) }
    ensures stands { IfOk result (λ x. FrameStands nodes.new x.0) }
    ensures kept { Keeps nodes.old nodes.new }
{
    let Some(keeps) = kept(tag, nodes.count(before)) else {
        return broken(StackMapRule::Chop, at);
    };
    let Some((adds, added)) = added(tag, rest) else {
        return broken(StackMapRule::Reserved, at);
    };
    let local_count = keeps.saturating_add(usize::from(adds));
    let Some((pushes, pushed)) = operands_after(tag, adds, added) else {
        if local_count > usize::from(method.code.max_locals) {
            return broken(StackMapRule::Locals, at);
        }
        if start_at(method, at).is_none() {
            return broken(StackMapRule::Offset, at);
        }
        return broken(StackMapRule::Kind, at);
    };
    if local_count > usize::from(method.code.max_locals) || pushes > method.code.max_stack {
        return broken(StackMapRule::Locals, at);
    }
    let Some(offset) = start_at(method, at) else {
        return broken(StackMapRule::Offset, at);
    };
    let first = nodes.shorten(before, keeps);
    let Some((locals, _)) = append_items(nodes, first, method, adds, added)? else {
        return broken(StackMapRule::Kind, at);
    };
    let none = TypeChain { last: 0, count: 0 };
    let Some((stack, rest)) = append_items(nodes, none, method, pushes, pushed)? else {
        return broken(StackMapRule::Kind, at);
    };
    let raw = RawFrame {
        offset,
        locals,
        stack,
    };
    Ok((raw, rest))
}

// The next frame, after one at this offset with these local variables, or the first.
#[tactic(auto, using(crate::proofs::Chains::keeps_all), unfolding(crate::specs::StackMap::frame))]
fn frame<'a>(
    nodes: &mut TypeNodes,
    method: &MethodView,
    last: Option<u16>,
    before: TypeChain,
    bytes: &'a [u8],
) -> Result<(RawFrame, &'a [u8]), StackMapFault>
    requires rising { IsStrictlyIncreasing method.now.linked.offsets }
    requires stands { Stands nodes.old before }
    ensures gives { Gives (λ x. (spelled_in nodes.new x.0, x.1.now)) result (frame method.now last (types_of nodes.old before) bytes.now) }
    ensures stands { IfOk result (λ x. FrameStands nodes.new x.0) }
    ensures kept { Keeps nodes.old nodes.new }
{
    let last_offset = usize::from(last.unwrap_or(0));
    let [tag, rest @ ..] = bytes else {
        return broken(StackMapRule::Reserved, last_offset);
    };
    let Some((distance, rest)) = delta(*tag, rest) else {
        return broken(StackMapRule::Reserved, last_offset);
    };
    let at = match last {
        None => usize::from(distance),
        Some(last) => usize::from(last) + usize::from(distance) + 1,
    };
    frame_after(nodes, method, at, before, *tag, rest)
}

// The types of a method's arguments, which stand in the nodes then.
fn argument_chain(
    alloc: Global,
    nodes: &mut TypeNodes,
    method: &MethodView,
) -> Result<TypeChain, AllocError>
    ensures types { IfOk result (λ chain. types_of nodes.new chain ≡ argument_types method.now) }
    ensures stands { IfOk result (Stands nodes.new) }
{
    let types = method.argument_types(alloc)?;
    nodes.append_all(&types)
}

// `count` frames, each with its offset, and no byte after them.
fn frames(
    alloc: Global,
    method: &MethodView,
    count: u16,
    bytes: &[u8],
) -> Result<DeclaredFrames, StackMapFault>
    requires { IsStrictlyIncreasing method.now.linked.offsets }
    ensures frames { Gives (λ v. v) result (frames method.now count None (argument_types method.now) bytes.now) }
    ensures few { IfOk result (λ v. length v ≤ 65535) }
{
    let mut nodes = TypeNodes::new(alloc);
    let mut locals = argument_chain(alloc, &mut nodes, method)?;
    // A frame takes a byte at least.
    let mut frames = Vec::with_capacity(alloc, usize::from(count).min(bytes.len()))?;
    let mut last = None;
    let mut rest = bytes;
    for _ in 0..count {
        let (raw, after) = frame(&mut nodes, method, last, locals, rest)?;
        frames.push(raw)?;
        last = Some(raw.offset);
        locals = raw.locals;
        rest = after;
    }
    match rest {
        [] => Ok(DeclaredFrames {
            nodes,
            frames,
            max_locals: method.code.max_locals,
        }),
        [_, ..] => broken(StackMapRule::Reserved, usize::from(last.unwrap_or(0))),
    }
}

// The frames of the table, if there is one.
#[tactic(auto, unfolding(crate::specs::StackMap::declared_frames, crate::specs::StackMap::frames_of_table))]
fn declared_or_none(alloc: Global, method: &MethodView) -> Result<DeclaredFrames, StackMapFault>
    requires { IsStrictlyIncreasing method.now.linked.offsets }
    ensures declared { Gives (λ v. v) result (declared_frames method.now) }
    ensures few { IfOk result (λ v. length v ≤ 65535) }
{
    let Some(table) = &method.code.stack_map_table else {
        return Ok(DeclaredFrames {
            nodes: TypeNodes::new(alloc),
            frames: Vec::new(alloc),
            max_locals: method.code.max_locals,
        });
    };
    let Some((count, rest)) = u2(table.as_slice()) else {
        return broken(StackMapRule::Reserved, 0);
    };
    frames(alloc, method, count, rest)
}

/// Returns the frames that a method declares, each with its offset, in the order of the offsets:
/// none if it has no StackMapTable. The first fault counts; of several in one frame, the lowest
/// number.
#[tactic(auto, using(crate::proofs::FrameLimits::declared_rise, crate::proofs::FrameLimits::declared_within))]
pub fn declared(alloc: Global, method: &MethodView) -> Result<DeclaredFrames, StackMapFault>
    // The offsets of the method's instructions rise.
    requires { IsStrictlyIncreasing method.now.linked.offsets }
    // The method declares what is answered.
    ensures found { IfOk result (DeclaresFrames method.now) }
    // What the method declares is answered, unless memory runs out.
    ensures only { (ds : List (ℕ × Frame)) → DeclaresFrames method.now ds → Gives (λ v. v) result (Ok ds) }
    // Which fault it is: the first that is met in reading.
    ensures declared { Gives (λ v. v) result (declared_frames method.now) }
    ensures rising { IfOk result (λ v. IsStrictlyIncreasing (map (λ declared. declared.0) v)) }
    ensures within { IfOk result (AllByRecursion (FitsMethod method.now)) }
    // Their number is one of two bytes.
    ensures few { IfOk result (λ v. length v ≤ 65535) }
{
    declared_or_none(alloc, method)
}
