//! Laws of type safety.

ghost use Rattle.std.specs.Prelude.{◌≡◌, ◌<◌, ℕ, length};
ghost use Rattle.ver_check.specs.Bodies.{Body};
ghost use Rattle.ver_check.specs.Typing.{IsTyping};
ghost use Rattle.ver_frames.specs.Frames.{Frame};

/// Any two typings of a body agree at each of its instructions: the body alone decides the type of
/// a local variable or an operand there (JVMS 4.10.1.6).
pub fn one_typing()
    ensures { (body : Body) (frames others : ℕ → Frame) → IsTyping body frames → IsTyping body others
        → (index : ℕ) → index < length body.insns → frames index ≡ others index }
{}
