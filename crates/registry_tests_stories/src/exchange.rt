//! A connection over HTTP to the registry of a story, without a socket: the server's own state of a
//! connection is given what comes, and is asked what to send.

use crate::clock::StatedClock;
use crate::failure::{Stop, failed_with};
use crate::registry::{DB, StoryRegistry};
use registry_desk::Registry;
use registry_http::RegistryService;
use registry_names::{Fault, Moment};
use registry_server::{ConnectionState, Progress};
use registry_service::{End, HttpService, REQUESTS_PER_CONNECTION};
use sqlite::{Alter, Unknown};
use std::alloc::{AllocError, Global};

/// Where more bytes than this come in pieces, the pieces are large.
const MANY: usize = 20_000;

/// The bytes of a large piece.
const LARGE_PIECE: usize = 4_096;

/// How the bytes come on a connection.
#[derive(Clone, Copy, PartialEq, Eq)]
pub enum Pace {
    /// All at once.
    AtOnce,
    /// One byte a read, or a few thousand where there are many.
    InPieces,
}

/// What is answered on a connection, and how it ends.
#[derive(Drop)]
pub struct Answer {
    pub bytes: Vec<u8>,
    pub end: Option<End>,
}

/// What the registry answers at this moment on a connection on which these bytes come.
pub fn answered(
    rt: &HostRuntime,
    alloc: Global,
    registry: &mut StoryRegistry,
    at: Moment,
    asked: &[u8],
    pace: Pace,
) -> Result<Answer, Stop> {
    match registry {
        StoryRegistry::InMemory(service) => {
            let exchange = Exchange::new(alloc, at);
            Ok(exchange.carry(alloc, service, asked, pace)?)
        }
        StoryRegistry::InFile => match Registry::open(rt, DB, Unknown) {
            Ok(registry) => Ok(answered_in(alloc, registry, at, asked, pace)?),
            Err(_) => Err(failed_with(alloc, "the registry's file can't be opened")),
        },
    }
}

// What a registry answers, which is let go of.
fn answered_in<S: Alter + Drop>(
    alloc: Global,
    registry: Registry<S>,
    at: Moment,
    asked: &[u8],
    pace: Pace,
) -> Result<Answer, AllocError> {
    let mut service = RegistryService::new(registry);
    Exchange::new(alloc, at).carry(alloc, &mut service, asked, pace)
}

/// A connection, its clock, what it has answered so far, and how it ended, if it has.
#[derive(Drop)]
struct Exchange {
    state: ConnectionState,
    clock: StatedClock,
    bytes: Vec<u8>,
    end: Option<End>,
}

impl Exchange {
    fn new(alloc: Global, at: Moment) -> Exchange {
        Exchange {
            state: ConnectionState::new(alloc),
            clock: StatedClock { at },
            bytes: Vec::new(alloc),
            end: None,
        }
    }

    // Gives the connection what comes, and then says that no more comes.
    fn carry<D: HttpService>(
        self,
        alloc: Global,
        service: &mut D,
        asked: &[u8],
        pace: Pace,
    ) -> Result<Answer, AllocError> {
        let mut exchange = self;
        match pace {
            Pace::AtOnce => exchange.give(alloc, service, asked)?,
            Pace::InPieces => exchange.give_pieces(alloc, service, asked)?,
        }
        if exchange.end.is_none() {
            exchange.end = exchange.take_turns(alloc, service, true)?;
        }
        let Exchange { bytes, end, .. } = exchange;
        Ok(Answer { bytes, end })
    }

    // Gives the connection one piece after the other.
    fn give_pieces<D: HttpService>(
        &mut self,
        alloc: Global,
        service: &mut D,
        asked: &[u8],
    ) -> Result<(), AllocError> {
        let piece_len = if asked.len() > MANY { LARGE_PIECE } else { 1 };
        for piece in asked.chunks(piece_len) {
            self.give(alloc, service, piece)?;
        }
        Ok(())
    }

    // Gives the connection one piece. What comes after the end is dropped.
    fn give<D: HttpService>(
        &mut self,
        alloc: Global,
        service: &mut D,
        piece: &[u8],
    ) -> Result<(), AllocError> {
        if self.end.is_none() {
            self.state.came(piece)?;
            self.end = self.take_turns(alloc, service, false)?;
        }
        Ok(())
    }

    // Takes turns until the connection waits for more, or ends. Returns how it ends, if it does.
    fn take_turns<D: HttpService>(
        &mut self,
        alloc: Global,
        service: &mut D,
        is_over: bool,
    ) -> Result<Option<End>, AllocError> {
        for _ in 0..=REQUESTS_PER_CONNECTION {
            if !self.state.may_take_turn() {
                break;
            }
            match self
                .state
                .take_turn(alloc, service, &mut self.clock, is_over)
            {
                Progress::Answered => self.send()?,
                Progress::Waits => return Ok(None),
                Progress::Closed => return Ok(Some(End::Closed)),
            }
        }
        Ok(self.state.ends())
    }

    // Sends everything that isn't sent yet.
    fn send(&mut self) -> Result<(), AllocError> {
        let (head, body, rest) = self.state.outgoing().parts();
        self.bytes.extend_from_slice(head)?;
        self.bytes.extend_from_slice(body)?;
        self.bytes.extend_from_slice(rest)?;
        let front = head.len().saturating_add(body.len());
        let count = front.saturating_add(rest.len());
        self.state.sent(count);
        Ok(())
    }
}

/// How a connection ended, in the words of a story.
pub fn end_text(end: Option<End>) -> &'static str {
    match end {
        None => "[open]",
        Some(End::Closed) => "[closed]",
        Some(End::Limit) => "[limit]",
        Some(End::BadInput) => "[bad input]",
        Some(End::ReadFault) => "[read fault]",
        Some(End::WriteFault) => "[write fault]",
        Some(End::Faulted(Fault::Memory)) => "[faulted Memory]",
        Some(End::Faulted(Fault::Database)) => "[faulted Database]",
    }
}
