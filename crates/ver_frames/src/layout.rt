//! How a frame of a StackMapTable lies in its bytes (JVMS 4.7.4).

ghost use Rattle.std.specs.Prelude.{◌≡◌, ◌≤◌, IfSome, option_and_then};
ghost use Rattle.ver_frames.specs.Gives.{Finds};
ghost use Rattle.ver_frames.specs.StackMap.{u2, after_item, after_items, delta, kept, added, operands};

// The tag of a frame that says all of its local variables and operands.
const FULL: u8 = 255;

// A number of two bytes, and the bytes after it.
pub(crate) fn u2(bytes: &[u8]) -> Option<(u16, &[u8])>
    ensures { Finds (λ x. (x.0, x.1.now)) result (u2 bytes.now) }
{
    match bytes {
        [high, low, rest @ ..] => Some((256 * u16::from(*high) + u16::from(*low), rest)),
        _ => None,
    }
}

// The bytes after an item, if its tag is one of the format's.
#[tactic(auto, unfolding(crate::specs::StackMap::after_item))]
fn after_item(bytes: &[u8]) -> Option<&[u8]>
    ensures { Finds (λ x. x.now) result (after_item bytes.now) }
{
    match bytes {
        [] => None,
        [tag, rest @ ..] => match *tag {
            0..=6 => Some(rest),
            7 | 8 => {
                let (_, rest) = u2(rest)?;
                Some(rest)
            }
            _ => None,
        },
    }
}

// The bytes after `count` items.
#[tactic(auto, using(crate::proofs::Loops::after_items_left), unfolding(crate::specs::StackMap::after_items))]
fn after_items(count: u16, bytes: &[u8]) -> Option<&[u8]>
    ensures { Finds (λ x. x.now) result (after_items count bytes.now) }
{
    let mut rest = bytes;
    for _ in 0..count {
        rest = after_item(rest)?;
    }
    Some(rest)
}

// How far a frame of this tag is from the one before it, and the bytes after that.
#[tactic(auto, unfolding(crate::specs::StackMap::delta))]
pub(crate) fn delta(tag: u8, rest: &[u8]) -> Option<(u16, &[u8])>
    ensures { Finds (λ x. (x.0, x.1.now)) result (delta tag rest.now) }
{
    if tag < 64 {
        return Some((u16::from(tag), rest));
    }
    if tag < 128 {
        return Some((u16::from(tag - 64), rest));
    }
    if tag < 247 {
        return None;
    }
    u2(rest)
}

// How many of the `count` local variables of the frame before a frame of this tag keeps: `None` if
// it takes away more than there are.
#[tactic(auto, unfolding(crate::specs::StackMap::kept))]
pub(crate) fn kept(tag: u8, count: usize) -> Option<usize>
    ensures kept { result ≡ kept tag count }
    ensures within { IfSome result (λ keeps. keeps ≤ count) }
{
    if tag == FULL {
        return Some(0);
    }
    if tag > 250 || tag < 248 {
        return Some(count);
    }
    count.checked_sub(usize::from(251 - tag))
}

// How many further local variables a frame of this tag has, and the bytes of their items.
#[tactic(auto, unfolding(crate::specs::StackMap::added))]
pub(crate) fn added(tag: u8, rest: &[u8]) -> Option<(u16, &[u8])>
    ensures { Finds (λ x. (x.0, x.1.now)) result (added tag rest.now) }
{
    if tag == FULL {
        return u2(rest);
    }
    if tag > 251 {
        return Some((u16::from(tag - 251), rest));
    }
    Some((0, rest))
}

// How many operands a frame of this tag has, and the bytes of their items, after those of its
// further local variables.
#[tactic(auto, unfolding(crate::specs::StackMap::operands))]
fn operands(tag: u8, rest: &[u8]) -> Option<(u16, &[u8])>
    ensures { Finds (λ x. (x.0, x.1.now)) result (operands tag rest.now) }
{
    if tag == FULL {
        return u2(rest);
    }
    if tag == 247 || (tag >= 64 && tag < 128) {
        return Some((1, rest));
    }
    Some((0, rest))
}

// How many operands a frame of this tag has, and the bytes of their items, which follow those of
// `adds` further local variables.
pub(crate) fn operands_after(tag: u8, adds: u16, added: &[u8]) -> Option<(u16, &[u8])>
    ensures { Finds (λ x. (x.0, x.1.now)) result (option_and_then (operands tag) (after_items adds added.now)) }
{
    let rest = after_items(adds, added)?;
    operands(tag, rest)
}
