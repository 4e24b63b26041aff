//! Serving the spaces of a play.

ghost use Rattle.std.specs.Prelude.{◌≡◌};
ghost use Rattle.sp_lending.specs.Spaces.{setting_of};
ghost use Rattle.sp_behaviours.specs.Told.{AreRemoteRules};

use crate::journal::{Journal, Line, Pen, Typist};
use crate::parts::Part;
use sp_call_set::CallSet;
use sp_history::Setup;
use sp_serve::{Gate, Host, OpenGate, Served, Station, serve_on};
use sp_served::ServedSpace;
use space_ids::Uuid;
use std::io::BufReader;
use std::marker::Brand;
use std::thread;
use table_copies::PeerHashes;
use vm_step::{Limits, Program};

/// Serves a space of this program, whose lines are typed. Returns its status.
pub fn serve_one<'p, R: Host, G: Gate + Drop + Sync>(
    rt: &R,
    journal: &Journal,
    program: &'p Program,
    classes: &'p CallSet<'p>,
    part: Part,
    gate: G,
    lines: &[Line<'_>],
) -> u8
    requires classes { classes.now ≡ program.now }
    requires rules { AreRemoteRules program.now.classes }
{
    let (id, limits) = (part.id, Limits::default());
    serve_over::<Brand, R, G>(
        rt, journal, program, classes, [0; 32], id, limits, part, gate, lines,
    )
}

// Serves a space of this program, of a setting that the caller names.
fn serve_over<'p, N: Setup + Send, R: Host, G: Gate + Drop + Sync>(
    rt: &R,
    journal: &Journal,
    program: &'p Program,
    classes: &'p CallSet<'p>,
    digest: [u8; 32],
    id: Uuid,
    limits: Limits,
    part: Part,
    gate: G,
    lines: &[Line<'_>],
) -> u8
    requires classes { classes.now ≡ program.now }
    requires rules { AreRemoteRules program.now.classes }
    requires setting { N.setting ≡ setting_of program.now id digest limits 1 }
{
    match ServedSpace::<'p, N>::new(
        rt.alloc(),
        program,
        classes,
        digest,
        id,
        limits,
        1,
        PeerHashes::Fixed,
    ) {
        Ok(space) => serve(rt, journal, space, part, gate, lines),
        Err(_) => 3,
    }
}

// Serves a space whose lines are typed. Returns its status.
fn serve<R: Host, S: Served + Drop + Send, G: Gate + Drop + Sync>(
    rt: &R,
    journal: &Journal,
    space: S,
    part: Part,
    gate: G,
    lines: &[Line<'_>],
) -> u8
where
    S::Apart: Send,
{
    let typist = Typist {
        rt,
        journal,
        lines,
        next: 0,
    };
    let Ok(mut input) = BufReader::new(rt.alloc(), typist) else {
        return 3;
    };
    let Part {
        id: _,
        listener,
        plan,
    } = part;
    let pen = Pen { rt, journal };
    let station = Station::new(rt.alloc(), listener, space, plan, gate, pen);
    let mut faults = Vec::new(rt.alloc());
    serve_on(rt, &station, &mut input, &mut faults)
}

/// Serves two spaces of this program at once, whose lines are typed. Returns their statuses.
pub fn serve_two<'p, R: Host>(
    rt: &R,
    journal: &Journal,
    program: &'p Program,
    classes: &'p CallSet<'p>,
    one: Part,
    ones: &[Line<'_>],
    other: Part,
    others: &[Line<'_>],
) -> (u8, u8)
    requires classes { classes.now ≡ program.now }
    requires rules { AreRemoteRules program.now.classes }
{
    thread::join(
        rt,
        move || -> u8
            requires classes { classes.now ≡ program.now }
            requires rules { AreRemoteRules program.now.classes }
        { serve_one(rt, journal, program, classes, one, OpenGate, ones) },
        move || -> u8
            requires classes { classes.now ≡ program.now }
            requires rules { AreRemoteRules program.now.classes }
        { serve_one(rt, journal, program, classes, other, OpenGate, others) },
    )
}
