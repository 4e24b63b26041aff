//! Plays books over a space of machines: one that is full, one whose queue has room for one notice, a counter that is
//! made, counts and is withdrawn, and two workers of whom a gate holds one back. With arguments it runs what bench/book
//! measures: `tasks N W` runs N short roots by W workers, `long N W M` N roots of M million instructions each, and
//! `weigh N` tells what N entries take.
#![tactic(auto)]

ghost use Rattle.std.specs.Prelude.{◌≡◌};
ghost use Rattle.sp_lending.specs.Spaces.{setting_of};
ghost use Rattle.sp_behaviours.specs.Told.{AreRemoteRules};
ghost use Rattle.sp_rules.specs.State.{opening};

use crate::counter::{count, counting_of};
use crate::host::Host;
use crate::load::{Load, run_load};
use crate::play::Play;
use crate::plays::{fill, gather_late, hold, queue};
use crate::standing::{Standing, gather_all};
use crate::told::failed;
use crate::weight::weigh;
use crate::words::{Request, request_of};
use sim_spaces::method_of;
use sp_book::{Book, Naming, Opened};
use sp_call_set::CallSet;
use sp_files::program_of;
use sp_history::Setup;
use sp_lending::LendingSpace;
use sp_main::class_files;
use sp_words::Disk;
use space_ids::Uuid;
use std::io;
use std::io::Write;
use std::marker::Brand;
use std::process::ExitCode;
use table_copies::PeerHashes;
use vm_step::{Limits, Program};

mod counter;
mod gates;
mod host;
mod load;
mod play;
mod plays;
mod standing;
mod told;
mod weight;
mod words;

// The most fuel of a root.
const MOST_FUEL: u64 = 1 << 40;

fn main(rt: HostRuntime) -> ExitCode {
    match play_folder(&rt, &mut io::writer(&rt.stdout())) {
        Ok(()) => ExitCode::from(0),
        Err(_) => ExitCode::from(1),
    }
}

// Plays over the class files of the folder in which it runs.
fn play_folder<R: Host, W: Write>(rt: &R, out: &mut W) -> io::Result<()> {
    let alloc = rt.alloc();
    let request = request_of(rt)?;
    let Ok(files) = class_files(alloc, &Disk { runtime: rt }, ".")? else {
        return Err(failed());
    };
    match program_of(alloc, &files) {
        Ok(program) => play_program(rt, &program, request, out),
        Err(_) => Err(failed()),
    }
}

fn play_program<R: Host, W: Write>(
    rt: &R,
    program: &Program,
    request: Request,
    out: &mut W,
) -> io::Result<()>
    requires rules { AreRemoteRules program.now.classes }
{
    let classes = CallSet::new(rt.alloc(), program)?;
    match request {
        Request::Rows => play_rows(rt, program, &classes, out),
        Request::Load {
            roots,
            turns,
            workers,
        } => {
            let Ok(method) = method_of(rt.alloc(), program, "T", "f(I)I") else {
                return Err(failed());
            };
            let load = Load {
                method,
                turns,
                roots,
                workers,
            };
            play_one(rt, program, &classes, Play::Load(load), out)
        }
        Request::Weigh(entries) => play_one(rt, program, &classes, Play::Weigh(entries), out),
    }
}

fn play_rows<'p, R: Host, W: Write>(
    rt: &R,
    program: &'p Program,
    classes: &'p CallSet<'p>,
    out: &mut W,
) -> io::Result<()>
    requires classes { classes.now ≡ program.now }
    requires rules { AreRemoteRules program.now.classes }
{
    let counting = counting_of(rt.alloc(), program, here())?;
    let make = counting.make;
    for play in [
        Play::Full,
        Play::Queue(make),
        Play::Counting(counting),
        Play::Holding(make),
    ] {
        play_one(rt, program, classes, play, out)?;
    }
    Ok(())
}

// The id of the space.
fn here() -> Uuid {
    Uuid::from_u128(10)
}

// Plays on a book of its own.
fn play_one<'p, R: Host, W: Write>(
    rt: &R,
    program: &'p Program,
    classes: &'p CallSet<'p>,
    play: Play,
    out: &mut W,
) -> io::Result<()>
    requires classes { classes.now ≡ program.now }
    requires rules { AreRemoteRules program.now.classes }
{
    let limits = Limits {
        fuel: MOST_FUEL,
        ..Limits::default()
    };
    play_over::<Brand, R, W>(rt, program, classes, [0; 32], here(), limits, play, out)
}

// Plays on a new book over a space of this program, of a setting that the caller names.
fn play_over<'p, M: Setup + Send, R: Host, W: Write>(
    rt: &R,
    program: &'p Program,
    classes: &'p CallSet<'p>,
    digest: [u8; 32],
    id: Uuid,
    limits: Limits,
    play: Play,
    out: &mut W,
) -> io::Result<()>
    requires classes { classes.now ≡ program.now }
    requires rules { AreRemoteRules program.now.classes }
    requires setting { M.setting ≡ setting_of program.now id digest limits 1 }
{
    let space = LendingSpace::<'p, M>::new(
        rt.alloc(),
        program,
        classes,
        digest,
        id,
        limits,
        1,
        PeerHashes::Fixed,
    )?;
    play_in::<M, LendingSpace<'p, M>, R, W>(rt, space, play, out)
}

// Plays on a new book over a space to which nothing has happened. A queue that has no book yet cannot be let go, so
// the space is made before it.
fn play_in<M: Setup, S: Standing + Drop + Send, R: Host, W: Write>(
    rt: &R,
    space: S,
    play: Play,
    out: &mut W,
) -> io::Result<()>
where
    S::Task: Send,
    S::Rest: Send,
    S::Base: Send,
    requires { S.is_space M.setting opening space }
{
    let opened = Opened::new(rt.alloc(), play.notices())?;
    play_named::<Brand, S, R, W>(rt, opened, space, play, out)
}

// Plays on a book that the caller names.
fn play_named<N: Naming + Send + Sync, S: Standing + Drop + Send, R: Host, W: Write>(
    rt: &R,
    opened: Opened,
    space: S,
    play: Play,
    out: &mut W,
) -> io::Result<()>
where
    S::Task: Send,
    S::Rest: Send,
    S::Base: Send,
    requires name { opened.blank.name ≡ N.name }
    requires parts { opened.blank.parts ≡ N.parts }
    requires all { opened.blank.parts ≡ N.all }
    requires table { opened.queue.table.shared.table_id ≡ N.table }
    requires space { S.is_space N.setting opening space }
{
    let book = opened.named::<N, S>(rt.alloc(), space, play.entries())?;
    play_on(rt, book, play, out)
}

fn play_on<N: Naming + Send + Sync, S: Standing + Drop + Send, R: Host, W: Write>(
    rt: &R,
    book: Book<N, S>,
    play: Play,
    out: &mut W,
) -> io::Result<()>
where
    S::Task: Send,
    S::Rest: Send,
    S::Base: Send,
    requires { N.all ≡ N.parts }
{
    let alloc = rt.alloc();
    match play {
        Play::Full => {
            let (one, other) = fill(rt, alloc, &book, out)?;
            gather_late(alloc, book, one, other, out)
        }
        Play::Queue(make) => queue(rt, alloc, &book, make, out),
        Play::Counting(counting) => {
            let passes = count(rt, alloc, &book, counting, out)?;
            gather_all(book, passes, out)
        }
        Play::Holding(make) => hold(rt, alloc, &book, make, out),
        Play::Load(load) => run_load(rt, alloc, &book, load, out),
        Play::Weigh(entries) => weigh(rt, alloc, &book, entries, out),
    }
}
