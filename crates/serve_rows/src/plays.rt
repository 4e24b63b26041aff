//! What is played.

ghost use Rattle.std.specs.Prelude.{◌≡◌};
ghost use Rattle.sp_behaviours.specs.Told.{AreRemoteRules};

use crate::gates::Holding;
use crate::journal::Journal;
use crate::lines::{
    CALLER_LINES, COUNTER_LINES, HELD_LINES, OWNER_LINES, PASSING_LINES, SHELF_LINES,
};
use crate::parts::Part;
use crate::spaces::{serve_one, serve_two};
use sp_call_set::CallSet;
use sp_serve::{Host, OpenGate};
use std::sync::atomic::{AtomicU64, Ordering};
use std::{io, thread};
use vm_step::Program;

// The space of this number, which binds a counter.
fn counting<R: Host>(rt: &R, number: u128) -> io::Result<Part> {
    let mut part = Part::new(rt, number, &[])?;
    part.bind(rt.alloc(), "counter", "Counter", "export()LInc;")?;
    Ok(part)
}

/// Plays two spaces: one binds a counter, and the other looks it up and has it count. Returns their statuses.
pub fn talk<'p, R: Host>(
    rt: &R,
    journal: &Journal,
    program: &'p Program,
    classes: &'p CallSet<'p>,
) -> io::Result<(u8, u8)>
    requires classes { classes.now ≡ program.now }
    requires rules { AreRemoteRules program.now.classes }
{
    let owner = counting(rt, 10)?;
    let caller = Part::new(rt, 11, &[owner.peer()?])?;
    Ok(serve_two(
        rt,
        journal,
        program,
        classes,
        owner,
        &OWNER_LINES,
        caller,
        &CALLER_LINES,
    ))
}

/// Plays three spaces: the first binds a counter, the third a shelf, and the second puts the counter on the shelf. Then
/// it puts a counter of its own there, of which the third can get no entry, since it does not know where the second
/// listens: the method that would take it does not start. Returns their statuses.
pub fn pass_on<'p, R: Host>(
    rt: &R,
    journal: &Journal,
    program: &'p Program,
    classes: &'p CallSet<'p>,
) -> io::Result<(u8, (u8, u8))>
    requires classes { classes.now ≡ program.now }
    requires rules { AreRemoteRules program.now.classes }
{
    let owner = counting(rt, 10)?;
    let mut keeper = Part::new(rt, 12, &[owner.peer()?])?;
    keeper.bind(rt.alloc(), "shelf", "Shelf", "export()LKeeper;")?;
    let passer = Part::new(rt, 11, &[owner.peer()?, keeper.peer()?])?;
    Ok(thread::join(
        rt,
        move || -> u8
            requires classes { classes.now ≡ program.now }
            requires rules { AreRemoteRules program.now.classes }
        {
            serve_one(
                rt,
                journal,
                program,
                classes,
                owner,
                OpenGate,
                &COUNTER_LINES,
            )
        },
        move || -> (u8, u8)
            requires classes { classes.now ≡ program.now }
            requires rules { AreRemoteRules program.now.classes }
        {
            serve_two(
                rt,
                journal,
                program,
                classes,
                passer,
                &PASSING_LINES,
                keeper,
                &SHELF_LINES,
            )
        },
    ))
}

/// Plays a space of two workers with two roots, of which the first is held back until the second has ended. Returns
/// the status, and whether the gate held until then.
pub fn hold<'p, R: Host>(
    rt: &R,
    journal: &Journal,
    program: &'p Program,
    classes: &'p CallSet<'p>,
) -> io::Result<(u8, bool)>
    requires classes { classes.now ≡ program.now }
    requires rules { AreRemoteRules program.now.classes }
{
    let (ended, gave_up) = (AtomicU64::new(0), AtomicU64::new(0));
    let gate = Holding {
        rt,
        held: 1,
        first: 2,
        ended: &ended,
        gave_up: &gave_up,
    };
    let part = Part::new(rt, 12, &[])?;
    let status = serve_one(rt, journal, program, classes, part, gate, &HELD_LINES);
    Ok((status, gave_up.load(Ordering::SeqCst) == 0))
}
