//! The laws of tasks that follow machines.

ghost use Rattle.sp_behaviours.specs.Laws.{AskedIsHeld, AsksStay, EndsAreMade, EndsAreTold, LentIsLeft, RepliesFollow, StandsAreThose, StartsFollow, StepsAreCounted, StepsFollow};

/// A task of a space that follows a machine stands where the machine stands: before an instruction of
/// its own, at one that asks the space, or at its end, which is what the machine tells.
pub fn tasks_stand_where_machines_stand()
    ensures stands { StandsAreThose }
    ensures ends { EndsAreTold }
{}

/// It follows the machine through any number of its own instructions, and makes as many of them. One that
/// ends the machine ends the task, and no other one. One that asks the space is not made before the reply
/// comes, and asks of an object that the task holds.
pub fn instructions_are_followed()
    ensures follows { StepsFollow }
    ensures ends { EndsAreMade }
    ensures asks { AsksStay }
    ensures held { AskedIsHeld }
    ensures counted { StepsAreCounted }
{}

/// It follows the machine through each reply of the space that is due: a value, an exception, or what a
/// call gives with the fuel that comes back. For a call it lends all the fuel that the machine has left.
pub fn replies_are_followed()
    ensures follows { RepliesFollow }
    ensures lent { LentIsLeft }
{}

/// A task that starts at a static method, or at one with its receiver, follows its machine as that begins,
/// also where its arguments, their references or its first frame do not fit.
pub fn starts_are_followed()
    ensures { StartsFollow }
{}
