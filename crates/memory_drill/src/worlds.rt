//! Two spaces of a world. An event that was out of memory happens again in the same world, which then owes what it
//! owed before.

ghost use Rattle.std.specs.Prelude.{IfOk};
ghost use Rattle.sp_behaviours.specs.Told.{AreRemoteRules};

use super::Tally;
use super::path::is_want;
use super::remote::{ADDER, CELL};
use net_message::Message;
use sim_spaces::ProgramSpaces;
use sim_worlds::{Origin, ScriptSpace};
use sp_call_set::CallSet;
use sp_files::{ClassBytes, Content, Refusal, program_of};
use sp_tasks::Outcome;
use sp_world::{Dial, End, Event, Output, Unfinished, World, WorldEvent, run};
use space_ids::{Ref, Row, Uuid, Value};
use std::alloc::{AllocError, Global};
use vm_step::Program;

// The two spaces, by number.
const OWNER: usize = 0;

const CLIENT: usize = 1;

// More events than can happen by themselves.
const MOST_EVENTS: usize = 1000;

// What is let happen. Before each but a failure all happens that can by itself.
#[derive(Clone, Copy)]
enum Act {
    // A root of the owner makes an object.
    Make,
    // The owner binds a name to it, or takes the name away.
    Bind,
    Unbind,
    // The client looks the name up.
    LookUp,
    // A root of the client calls the object with an array and a new object of its own.
    Ask,
    // The moment of a space is one at which its leases are renewed.
    Renew(usize),
    // The result of a task of a space is let go.
    Release(usize, u64),
    Sweep(usize),
    // A read of the client fails.
    Fail,
}

const ACTS: [Act; 14] = [
    Act::Make,
    Act::Bind,
    Act::Release(OWNER, 1),
    Act::LookUp,
    Act::Ask,
    Act::Renew(CLIENT),
    Act::Renew(OWNER),
    Act::Release(CLIENT, 1),
    Act::Release(CLIENT, 2),
    Act::Unbind,
    Act::Sweep(OWNER),
    Act::Sweep(CLIENT),
    Act::LookUp,
    Act::Fail,
];

// What the spaces owe: a line for each event that they answer with something.
const OWED: [&str; 2] = [
    "started, ready
returned a reference
Hello
Returned
Lease
dial
Hello
Dirty
started, ready
returned [2], Returned
Lease
Dirty
Cleaned
withdrawn, Clean
Threw
",
    "started, dial
Hello
Lookup
Dirty
returned a reference, Ack
started, ready
Call
Hello
Lease
Ack, ready
returned [2]
Dirty
Lease
Clean
Cleaned
withdrawn
started, Lookup
threw
",
];

fn id(space: usize) -> Uuid {
    Uuid::from_u64_pair(0, space as u64)
}

fn files(alloc: Global) -> Result<Vec<ClassBytes>, AllocError> {
    let mut files = Vec::new(alloc);
    for bytes in [ADDER.as_slice(), CELL.as_slice()] {
        files.push(ClassBytes {
            path: String::new(alloc),
            content: Content::Bytes(bytes.to_vec(alloc)?),
        })?;
    }
    Ok(files)
}

fn program(alloc: Global, files: &[ClassBytes], tally: &mut Tally) -> Result<Program, Refusal>
    ensures { IfOk result (λ program. AreRemoteRules program.classes) }
{
    let mut answer = made_program(alloc, files);
    if let Err(refusal) = &answer
        && is_want(refusal)
    {
        tally.replace(&mut answer, made_program(alloc, files));
    }
    answer
}

// A program that files make keeps the rules on its remote classes.
fn made_program(alloc: Global, files: &[ClassBytes]) -> Result<Program, Refusal>
    ensures { IfOk result (λ program. AreRemoteRules program.classes) }
{
    program_of(alloc, files)
}

// The object that the owner has made.
fn made<S: ScriptSpace + Drop>(world: &World<S>) -> Result<Value, AllocError> {
    let shown = world.space(OWNER).and_then(|space| space.object(0));
    match shown {
        Some(shown) => Ok(Value::Ref(Ref {
            space: id(OWNER),
            id: shown.id,
            class: shown.class,
        })),
        None => Err(AllocError),
    }
}

fn name(alloc: Global) -> Result<Row<u8>, AllocError> {
    Ok(Row::new(b"n".to_vec(alloc)?))
}

fn own(space: usize, event: Event) -> WorldEvent {
    WorldEvent::Own { space, event }
}

fn root<S: ScriptSpace + Drop>(
    world: &World<S>,
    space: usize,
    method: &str,
    arguments: Vec<Value>,
) -> Result<WorldEvent, AllocError> {
    match world.space(space).map(|space| space.method("Cell", method)) {
        Some(Ok(method)) => Ok(WorldEvent::Root {
            space,
            method,
            arguments: Row::new(arguments),
            fuel: 100,
        }),
        _ => Err(AllocError),
    }
}

// The object of the owner, and the array [2].
fn arguments<S: ScriptSpace + Drop>(
    alloc: Global,
    world: &World<S>,
) -> Result<Vec<Value>, AllocError> {
    let mut values = Vec::new(alloc);
    values.push(made(world)?)?;
    values.push(Value::Ints(Row::new([2].to_vec(alloc)?)))?;
    Ok(values)
}

fn event_of<S: ScriptSpace + Drop>(
    alloc: Global,
    act: Act,
    world: &World<S>,
) -> Result<WorldEvent, AllocError> {
    Ok(match act {
        Act::Make => root(world, OWNER, "make()LAdder;", Vec::new(alloc))?,
        Act::Ask => root(world, CLIENT, "ask(LAdder;[I)[I", arguments(alloc, world)?)?,
        Act::Bind => own(
            OWNER,
            Event::Bind {
                name: name(alloc)?,
                value: made(world)?,
            },
        ),
        Act::Unbind => own(OWNER, Event::Unbind { name: name(alloc)? }),
        Act::LookUp => own(
            CLIENT,
            Event::Lookup {
                peer: id(OWNER),
                name: name(alloc)?,
            },
        ),
        Act::Renew(space) => own(space, Event::Moment(300_000)),
        Act::Release(space, task) => own(space, Event::RootAck(task)),
        Act::Sweep(space) => own(space, Event::Sweep),
        Act::Fail => WorldEvent::ReadFails {
            conn: 0,
            at: End::Dialler,
        },
    })
}

// What follows a run is proved without what it promises.
fn after<S: ScriptSpace + Drop>(
    world: World<S>,
    events: &[WorldEvent],
) -> Result<World<S>, Unfinished<S>> {
    run(world, events)
}

// Lets an event happen, once more if memory ran out before it was made.
fn happen<S: ScriptSpace + Drop>(
    world: World<S>,
    event: WorldEvent,
    tally: &mut Tally,
) -> World<S> {
    let events = [event];
    let unfinished = match after(world, &events) {
        Ok(world) => return world,
        Err(unfinished) => unfinished,
    };
    tally.wants = tally.wants.saturating_add(1);
    let Unfinished { world, made } = unfinished;
    let rest = if made == 0 { events.as_slice() } else { &[] };
    match after(world, rest) {
        Ok(world) => world,
        Err(unfinished) => unfinished.world,
    }
}

// The first frame that can come: the accepter's first.
fn delivery<S: ScriptSpace + Drop>(world: &World<S>) -> Option<WorldEvent> {
    if !world.is_settled() {
        return None;
    }
    for conn in 0..2 {
        if world.queued(conn, End::Accepter) {
            return Some(WorldEvent::Deliver {
                conn,
                to: End::Accepter,
            });
        }
        if world.queued(conn, End::Dialler) {
            return Some(WorldEvent::Deliver {
                conn,
                to: End::Dialler,
            });
        }
    }
    None
}

fn instruction<S: ScriptSpace + Drop>(world: &World<S>) -> Option<WorldEvent> {
    for space in [OWNER, CLIENT] {
        if let Some(task) = world.space(space).and_then(|space| space.ready()) {
            return Some(WorldEvent::Step { space, task });
        }
    }
    None
}

// The first event that can happen by itself.
fn next<S: ScriptSpace + Drop>(world: &World<S>) -> Option<WorldEvent> {
    if !world.is_settled() {
        return None;
    }
    if let Some(Dial { dialler, dialled }) = world.asked().first().copied() {
        return Some(WorldEvent::Open { dialler, dialled });
    }
    if let Some(conn) = world.unaccepted() {
        return Some(WorldEvent::Accept(conn));
    }
    delivery(world).or_else(|| instruction(world))
}

// Lets happen all that can by itself.
fn settle<S: ScriptSpace + Drop>(world: World<S>, tally: &mut Tally) -> World<S> {
    let mut world = world;
    for _ in 0..MOST_EVENTS {
        match next(&world) {
            Some(event) => world = happen(world, event, tally),
            None => return world,
        }
    }
    world
}

fn frame_word(message: &Message) -> &'static str {
    match message {
        Message::Hello { .. } => "Hello",
        Message::Call { .. } => "Call",
        Message::Returned { .. } => "Returned",
        Message::Threw { .. } => "Threw",
        Message::Spent { .. } => "Spent",
        Message::Ack { .. } => "Ack",
        Message::Dirty { .. } => "Dirty",
        Message::Lease { .. } => "Lease",
        Message::Clean { .. } => "Clean",
        Message::Cleaned { .. } => "Cleaned",
        Message::Lookup { .. } => "Lookup",
    }
}

fn ending_word(outcome: &Outcome) -> &'static str {
    match outcome {
        Outcome::Returned(Some(Value::Ints(ints))) if ints.as_slice() == [2].as_slice() =>
            "returned [2]",
        Outcome::Returned(Some(Value::Ref(_))) => "returned a reference",
        Outcome::Returned(_) => "returned",
        Outcome::Threw(_) => "threw",
        Outcome::Spent => "spent",
    }
}

fn word(output: &Output) -> &'static str {
    match output {
        Output::Started(_) => "started",
        Output::Ended(_, outcome) => ending_word(outcome),
        Output::Withdrawn(_) => "withdrawn",
        Output::Denied(_) => "denied",
        Output::Send { conn: _, message } => frame_word(message),
        Output::Dial(_) => "dial",
        Output::Close(_) => "close",
        Output::Ready(_) => "ready",
    }
}

// Adds the words of what one event was answered with, if it was.
fn put_row(text: &mut String, row: &[Output]) -> Result<(), AllocError> {
    for (index, output) in row.iter().enumerate() {
        if index > 0 {
            text.push_str(", ")?;
        }
        text.push_str(word(output))?;
    }
    if !row.is_empty() {
        text.push('\n')?;
    }
    Ok(())
}

fn told<S: ScriptSpace + Drop>(
    alloc: Global,
    world: &World<S>,
    space: usize,
) -> Result<String, AllocError> {
    let mut text = String::new(alloc);
    for row in world.outputs(space).unwrap_or(&[]) {
        put_row(&mut text, row)?;
    }
    Ok(text)
}

// Plays the acts in a world of these spaces, and compares what the spaces answer.
fn play_spaces<S: ScriptSpace + Drop>(
    alloc: Global,
    spaces: Vec<S>,
    tally: &mut Tally,
) -> Result<(), AllocError> {
    let mut world = World::new(alloc, spaces)?;
    for act in ACTS {
        if !matches!(act, Act::Fail) {
            world = settle(world, tally);
        }
        let event = event_of(alloc, act, &world)?;
        world = happen(world, event, tally);
    }
    world = settle(world, tally);
    for (space, owed) in OWED.iter().enumerate() {
        let text = told(alloc, &world, space)?;
        tally.answer(text.as_str() == *owed);
    }
    Ok(())
}

fn play_program(alloc: Global, program: &Program, tally: &mut Tally) -> Result<(), AllocError>
    requires { AreRemoteRules program.now.classes }
{
    let classes = CallSet::new(alloc, program)?;
    let origin = ProgramSpaces::new(alloc, program, &classes, [7; 32]);
    let mut spaces = Vec::new(alloc);
    for space in [OWNER, CLIENT] {
        spaces.push(origin.space(id(space), 1)?)?;
    }
    play_spaces(alloc, spaces, tally)
}

/// Plays a call from one space on an object of another, with an object of its own that goes along, and how both
/// objects are held and withdrawn.
pub fn play(alloc: Global, tally: &mut Tally) -> Result<(), AllocError> {
    let files = files(alloc)?;
    match program(alloc, &files, tally) {
        Ok(program) => play_program(alloc, &program, tally),
        Err(_) => {
            tally.answer(false);
            Ok(())
        }
    }
}
