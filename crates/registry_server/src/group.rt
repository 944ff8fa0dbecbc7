//! Commands that are answered together.

ghost use Rattle.std.specs.Prelude.{◌≡◌, ◌+◌, ◌++◌, ◌∷◌, [], None, false, true, length, IfOk, IfSome, if◌then◌else◌};
ghost use Rattle.registry_server.specs.Groups as spec;
ghost use Rattle.registry_server.specs.Groups.{Adds, AreAsked, AreSpelled, AskedEach, IsEmpty, IsNotNext, IsStill, Takes, in_order};

use crate::pool::CONNECTION_COUNT;
use registry_names::Fault;
use registry_rules::{Reply, Request};
use registry_service::{Clock, Service};
use registry_wire::Wanted;
use std::alloc::{AllocError, Global};
use std::collections::VecDeque;

/// A command is set aside only where its connection holds at most this many bytes.
pub const COMMAND_LIMIT: usize = 32_768;

/// The commands that are answered together have at most this many bytes.
pub const GROUP_LIMIT: usize = 1_048_576;

/// A command that has come whole: the number of the place of its connection, the request of HTTP
/// that spells it, and how many of the bytes there it takes.
#[derive(Drop)]
pub struct Command {
    pub number: usize,
    pub wanted: Wanted,
    pub used: usize,
}

/// The commands of a round that are to be answered together, in the order of their places. Its lists
/// take their memory at the start.
#[derive(Drop)]
pub struct Group {
    commands: VecDeque<Command>,
    requests: Vec<Request>,
    outcomes: Vec<Result<Reply, Fault>>,
    room: usize,
}

impl Group {
    /// A group without commands.
    pub fn new(alloc: Global) -> Result<Group, AllocError>
        ensures { IfOk result IsEmpty }
    {
        Ok(Group {
            commands: VecDeque::with_capacity(alloc, CONNECTION_COUNT)?,
            requests: Vec::with_capacity(alloc, CONNECTION_COUNT)?,
            outcomes: Vec::with_capacity(alloc, CONNECTION_COUNT)?,
            room: GROUP_LIMIT,
        })
    }

    /// A round begins: there are no commands.
    pub fn clear(&mut self)
        ensures { IsEmpty self.new }
    {
        self.commands.clear();
        self.requests.clear();
        self.outcomes.clear();
        self.room = GROUP_LIMIT;
    }

    /// Whether there are no commands.
    pub fn is_empty(&self) -> bool
        ensures { result ≡ true → self.now.commands.items ≡ [] }
    {
        self.commands.is_empty()
    }

    /// Whether a command may be added where a connection holds this many bytes.
    pub fn has_room(&self, held: usize) -> bool
        ensures { result ≡ spec.has_room self.now held }
    {
        held <= COMMAND_LIMIT && held <= self.room
    }

    /// Adds a command, and what it asks. False where there is no room or no memory for it, and then it
    /// isn't added.
    pub fn add(&mut self, command: Command, request: Request) -> bool
        ensures added { result ≡ true → Adds self.old self.new command request }
        ensures full { result ≡ false → IsStill self.old self.new }
    {
        let Some(room) = self.room.checked_sub(command.used) else {
            return false;
        };
        if self.requests.push(request).is_err() {
            return false;
        }
        if !self.push(command) {
            let _request = self.requests.pop();
            return false;
        }
        self.room = room;
        true
    }

    // Adds a command, and room for its outcome.
    fn push(&mut self, command: Command) -> bool
        ensures commands { self.new.commands.items
            ≡ (if result then self.old.commands.items ++ command ∷ [] else self.old.commands.items) }
        ensures outcomes { length self.new.outcomes.items
            ≡ (if result then length self.old.outcomes.items + 1 else length self.old.outcomes.items) }
        ensures requests { self.new.requests ≡ self.old.requests }
        ensures room { self.new.room ≡ self.old.room }
    {
        if self.outcomes.push(Err(Fault::Memory)).is_err() {
            return false;
        }
        if self.commands.push_back(command).is_err() {
            let _outcome = self.outcomes.pop();
            return false;
        }
        true
    }

    /// The commands are asked, each at the moment that the clock gives then, and answered together.
    /// What they asked is let go then.
    pub fn answer<D: Service, C: Clock>(&mut self, alloc: Global, service: &mut D, clock: &mut C)
        requires spelled { AreSpelled self.old.commands.items self.old.requests.items }
        requires many { length self.old.outcomes.items ≡ length self.old.commands.items }
        ensures commands { self.new.commands.items ≡ self.old.commands.items }
        ensures many { length self.new.outcomes.items ≡ length self.new.commands.items }
        ensures asked { AskedEach D.answers self.new.commands.items (in_order self.new)
            service.old service.new (C.readings clock.old) (C.readings clock.new) }
    {
        self.ask(clock);
        service.answer_together(alloc, &self.requests, &mut self.outcomes);
        self.requests.clear();
        self.outcomes.reverse();
    }

    // Each command is asked at the moment that the clock gives then.
    fn ask<C: Clock>(&mut self, clock: &mut C)
        requires { AreSpelled self.old.commands.items self.old.requests.items }
        ensures asked { AreAsked self.old.commands.items self.new.requests.items (C.readings clock.old)
            (C.readings clock.new) }
        ensures commands { self.new.commands ≡ self.old.commands }
        ensures outcomes { self.new.outcomes ≡ self.old.outcomes }
    {
        for request in self.requests.iter_mut() {
            request.at = clock.now();
        }
    }

    /// Whether the next command is that of the place of this number.
    pub fn is_next(&self, number: usize) -> bool
        ensures { result ≡ false → IsNotNext number self.now.commands.items }
    {
        match self.commands.front() {
            Some(command) => command.number == number,
            None => false,
        }
    }

    /// The next command, once they are answered, with its outcome, if it is that of the place of this
    /// number.
    pub fn take(&mut self, number: usize) -> Option<(Command, Result<Reply, Fault>)>
        requires { length self.old.outcomes.items ≡ length self.old.commands.items }
        ensures many { length self.new.outcomes.items ≡ length self.new.commands.items }
        ensures takes { IfSome result (λ taken. Takes self.old self.new number taken.0 taken.1) }
        ensures none { result ≡ None → IsNotNext number self.old.commands.items × (self.new ≡ self.old) }
    {
        match self.commands.front() {
            Some(command) if command.number == number => {}
            _ => return None,
        }
        let outcome = self.outcomes.pop()?;
        let command = self.commands.pop_front()?;
        Some((command, outcome))
    }
}
