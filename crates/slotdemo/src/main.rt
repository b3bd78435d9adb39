//! A morning at a pond, hour by hour: all five structures at work.
//!
//! - What will happen waits in a `Scheduler`, by its hour.
//! - Each animal is an entity of a `World`. Its components are the stone that it sits on, and its
//!   cursor in the choir.
//! - The stones are the nodes of a `Graph`. An edge leads to each stone that is one hop away.
//! - The choir is a `StableList`, in the order in which the animals came.
//! - A log with a leaf on it is a `Scene`: where the log drifts, the leaf goes too.
//!
//! An event speaks of an animal by its key. If the animal is gone when the event comes, the key finds
//! nobody, also where another animal has its place in the store by then.
#![tactic(auto)]

mod animals;
mod log;
mod pond;

use animals::Animal;
use log::Log;
use pond::Pond;
use slotmap::{DefaultKey, NodeKey};
use slotmap_scheduler::Scheduler;
use std::process::ExitCode;

// What happens at an hour.
#[derive(Clone, Copy, Debug)]
enum Event {
    // An animal comes to a stone.
    Comes(Animal, NodeKey),
    // It goes on to the next stone.
    Hops(DefaultKey),
    // A heron eats it.
    Eaten(DefaultKey),
    // It leaves.
    Leaves(DefaultKey),
    // The log drifts.
    Drifts,
}

type Events = Scheduler<DefaultKey, Event>;

// An event will happen at an hour. Its handle can cancel it.
fn plan(events: &mut Events, hour: u64, event: Event) -> Option<DefaultKey> {
    events.schedule(hour, event).ok()
}

// An animal comes. It will go on to the next stone, and leave. The frog is eaten before that.
fn comes(
    pond: &mut Pond,
    events: &mut Events,
    hour: u64,
    animal: Animal,
    stone: NodeKey,
) -> Option<()> {
    let key = pond.welcome(animal, stone)?;
    let next = hour.saturating_add(1);
    plan(events, next, Event::Hops(key))?;
    plan(events, hour.saturating_add(3), Event::Leaves(key))?;
    if animal == Animal::Frog {
        plan(events, next, Event::Eaten(key))?;
    }
    Some(())
}

// An animal goes on to another stone.
fn hops(rt: &HostRuntime, pond: &mut Pond, key: DefaultKey) -> Option<()> {
    match pond.hop(key) {
        Some((animal, from, to)) => {
            let name = animal.name();
            println!(rt; "  the {name} hops from stone {from} to stone {to}").ok()
        }
        None => println!(rt; "  nobody hops").ok(),
    }
}

// An animal is at the pond no more.
fn goes(rt: &HostRuntime, pond: &mut Pond, key: DefaultKey, how: &str) -> Option<()> {
    match pond.take(key) {
        Some(animal) => {
            let name = animal.name();
            println!(rt; "  the {name} {how}").ok()
        }
        None => println!(rt; "  nobody {how}").ok(),
    }
}

// The log drifts, with the leaf on it.
fn drifts(rt: &HostRuntime, log: &mut Log) -> Option<()> {
    log.drift();
    let leaf = log.leaf()?;
    println!(rt;
        "  the log drifts, and its leaf lies at {}, {}",
        leaf.x, leaf.y
    )
    .ok()
}

// One event.
fn act(
    rt: &HostRuntime,
    pond: &mut Pond,
    log: &mut Log,
    events: &mut Events,
    hour: u64,
    event: Event,
) -> Option<()> {
    match event {
        Event::Comes(animal, stone) => {
            let name = animal.name();
            let number = pond.number(stone)?;
            println!(rt; "  a {name} comes to stone {number}").ok()?;
            comes(pond, events, hour, animal, stone)
        }
        Event::Hops(key) => hops(rt, pond, key),
        Event::Eaten(key) => goes(rt, pond, key, "is eaten by a heron"),
        Event::Leaves(key) => goes(rt, pond, key, "leaves"),
        Event::Drifts => drifts(rt, log),
    }
}

// How many stones can be reached from this one.
fn reach(rt: &HostRuntime, pond: &Pond, first: NodeKey) -> Option<()> {
    let within = pond.within_reach(rt.alloc(), first)?;
    println!(rt; "{within} stones are within reach of the first").ok()
}

// All events that are due at an hour. What they bring about comes at a later one.
fn pass(
    rt: &HostRuntime,
    pond: &mut Pond,
    log: &mut Log,
    events: &mut Events,
    hour: u64,
) -> Option<()> {
    println!(rt; "{hour} o'clock").ok()?;
    let mut due = Vec::new(rt.alloc());
    events.pop_all_due(hour, &mut due).ok()?;
    for (_, event) in due {
        act(rt, pond, log, events, hour, event)?;
    }
    let choir = pond.choir(rt.alloc())?;
    println!(rt; "  the choir:{choir}").ok()
}

// What is known at dawn. One of two ducks thinks better of it.
fn dawn(events: &mut Events, first: NodeKey, second: NodeKey) -> Option<()> {
    plan(events, 6, Event::Comes(Animal::Frog, first))?;
    plan(events, 8, Event::Comes(Animal::Newt, first))?;
    let duck = plan(events, 8, Event::Comes(Animal::Duck, first))?;
    plan(events, 7, Event::Comes(Animal::Duck, second))?;
    plan(events, 9, Event::Drifts)?;
    events.cancel(duck);
    Some(())
}

// The hours from 6 to 11.
fn hours(rt: &HostRuntime, pond: &mut Pond, log: &mut Log, events: &mut Events) -> Option<()> {
    for hour in 6..12 {
        pass(rt, pond, log, events, hour)?;
    }
    let left = pond.len();
    println!(rt; "{left} are left").ok()
}

// Dawn, and the hours after it.
fn from_dawn(
    rt: &HostRuntime,
    pond: &mut Pond,
    log: &mut Log,
    first: NodeKey,
    second: NodeKey,
) -> Option<()> {
    let mut events = Scheduler::new(rt.alloc()).ok()?;
    if dawn(&mut events, first, second).is_none() {
        return None;
    }
    hours(rt, pond, log, &mut events)
}

// A log lies on the pond.
fn with_log(rt: &HostRuntime, pond: &mut Pond, first: NodeKey, second: NodeKey) -> Option<()> {
    let mut log = Log::new(rt.alloc())?;
    from_dawn(rt, pond, &mut log, first, second)
}

// Three stones lie in the pond, and a log.
fn with_stones(rt: &HostRuntime, pond: &mut Pond) -> Option<()> {
    let (first, second) = pond.lay_three()?;
    reach(rt, pond, first)?;
    with_log(rt, pond, first, second)
}

// A morning at the pond.
fn morning(rt: &HostRuntime) -> Option<()> {
    let mut pond = Pond::new(rt.alloc())?;
    with_stones(rt, &mut pond)
}

fn main(rt: HostRuntime) -> ExitCode {
    match morning(&rt) {
        Some(()) => ExitCode::SUCCESS,
        None => ExitCode::FAILURE,
    }
}
