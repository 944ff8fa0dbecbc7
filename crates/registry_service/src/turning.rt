//! One turn of a connection.

ghost use Rattle.std.specs.Prelude.{◌≡◌, Bool, List, true, length, Ok, Result};
ghost use Rattle.registry_names.specs.declared.stop.Fault.{Fault};
ghost use Rattle.std.specs.List.{AllByRecursion};
ghost use Rattle.registry_rules.specs.Actions.{is_command};
ghost use Rattle.registry_rules.specs.declared.reply.Reply.{Reply};
ghost use Rattle.registry_rules.specs.declared.request.Request.{Request};
ghost use Rattle.registry_service.specs.Dialects.{AsksOne, AsksQueriesByGet};
ghost use Rattle.registry_service.specs.Servings.{IsTurnTold, IsTurnWith};
ghost use Rattle.registry_service.specs.Turns as spec;
ghost use Rattle.registry_service.specs.Turns.{AnswersAsBefore, AnswersEach, Dialect, Exchange, IsAnswered, Turns, bad_input, exchanges, no_memory, profile, request, spoken};

use crate::answer::Answer;
use crate::request::request_of;
use crate::told::Told;
use registry_names::{Fault, Moment, Refusal, Stop, Text};
use registry_rules::{Reply, Request};
use registry_wire::{Labels, Wanted};
use std::alloc::Global;

/// The most requests of one connection.
pub const REQUESTS_PER_CONNECTION: u32 = 1000;

/// A command beside the server, once it was answered.
#[derive(Clone, Copy)]
pub struct AnsweredCommand<'a> {
    /// Who asked: `operator`, or the name of a user. Empty where nobody is known.
    pub caller: &'a str,
    /// The subcommand's name, and those of its arguments that may be seen. Empty where the words of
    /// the command are no line.
    pub words: &'a [Text],
    /// The exit status of its program.
    pub status: u8,
    /// How many bytes it prints.
    pub length: u64,
}

/// Where requests are answered, one after the other.
pub trait Service {
    // What holds of a service, a request, its outcome, and the service that it leaves.
    ghost answers: { Self → Request → Result Reply Fault → Self → Type 0 };

    // Whether it is over.
    ghost over: { Self → Bool };

    /// Answers one request.
    fn answer(&mut self, alloc: Global, request: &Request) -> Result<Reply, Fault>
        ensures { answers self.old request.now result self.new };

    /// Answers commands that came together, as if each was asked alone, in their order. Their outcomes
    /// take the places of `outcomes`, of which there are as many.
    ///
    /// An implementation may let them share what each alone would wait for, such as a sync of the
    /// disk. The default asks one after the other.
    fn answer_together(
        &mut self,
        alloc: Global,
        requests: &[Request],
        outcomes: &mut [Result<Reply, Fault>],
    )
        requires each { length outcomes.old ≡ length requests.now }
        requires commands { AllByRecursion (λ r. is_command r.what ≡ true) requests.now }
        ensures many { length outcomes.new ≡ length requests.now }
        ensures answers { AnswersEach answers self.old (exchanges requests.now outcomes.new)
            self.new }
    {
        for (i, request) in requests.iter().enumerate() {
            outcomes[i] = self.answer(alloc, request);
        }
    }

    /// Whether it is over: no turn is begun any more. Commands that were set aside before, to be
    /// answered together, are still asked.
    fn is_over(&self) -> bool
        ensures { result ≡ over self.now };

    /// A turn of a connection was taken: for this request, or for input that isn't a request or
    /// could not be read.
    ///
    /// The server of many connections calls it, once for each turn: after the calls of
    /// [`answer`](Service::answer) or [`answer_together`](Service::answer_together), where the turn has
    /// any, and before anything of the response is sent. After `answer_together` it is called for the
    /// turns of its commands, in their order, before anything else is asked. Neither
    /// [`serve`](crate::serve) nor a command beside the server calls it; for a command there is
    /// [`note_command`](Service::note_command).
    ///
    /// An implementation may keep a log of what was answered. It changes nothing that contracts see
    /// of the service, and can't fail. It should not wait, since nobody is answered meanwhile. The
    /// default does nothing.
    fn note(&mut self, _wanted: Option<&Wanted>, _turned: &Turned)
        ensures { self.new ≡ self.old }
    {}

    /// A command beside the server was answered. Its guests call it once for each, after the call of
    /// [`answer`](Service::answer), where it has one, and before anything of its output is sent. Where
    /// there was no memory to read a command, it isn't called. What [`note`](Service::note) says of an
    /// implementation is true of this one, too.
    fn note_command(&mut self, _command: &AnsweredCommand<'_>)
        ensures { self.new ≡ self.old }
    {}

    /// A round of turns is over, and [`rest`](Service::rest) follows. An implementation may look up
    /// what it lacks of what it noted, such as whose token a request had that it wasn't asked. All
    /// that it may answer afterwards, it might have answered before. The default does nothing.
    fn look_up(&mut self, _alloc: Global)
        ensures before { AnswersAsBefore answers self.old self.new }
        ensures over { over self.new ≡ over self.old }
    {}

    /// A round of turns is over. The server of many connections calls it once in each round, after
    /// the turns of all connections and commands. An implementation may write what it noted. It
    /// changes nothing that contracts see of the service.
    fn rest(&mut self)
        ensures { self.new ≡ self.old }
    {}
}

/// A service that is asked over HTTP: it says what a request of HTTP asks of it.
pub trait HttpService: Service {
    // What requests of HTTP ask of it.
    ghost speaks: { Dialect };

    /// The turn of a whole request of HTTP, asked at this moment. What it asks of the registry, in
    /// the dialect of this service, is answered one request after the other, and nothing else is
    /// asked. `is_last` says that this is the last request that its connection may have.
    ///
    /// A service for the registry's own routes takes the turn by [`turn`].
    fn turn(&mut self, alloc: Global, wanted: &Wanted, at: Moment, is_last: bool) -> Turned
        ensures { Turns (spoken speaks Self.answers) self.old (request wanted.now at) is_last result
            self.new };

    /// Whether a request that spells a command by the registry's own routes asks just that command,
    /// so that it may be answered together with others. The default is that it doesn't.
    fn asks_one(&self, _wanted: &Wanted) -> bool
        ensures { result ≡ true → AsksOne speaks _wanted.now }
    {
        false
    }

    // A request that begins as a query does asks nothing but queries.
    ghost asks_queries: { AsksQueriesByGet speaks };
}

/// How a connection ends.
#[derive(Clone, Copy, Debug, PartialEq, Eq)]
pub enum End {
    /// The other side ended it after a whole request, or a request asked for it.
    Closed,
    /// It had as many requests as it may have: `REQUESTS_PER_CONNECTION`, or its last one, since its
    /// server is to end.
    Limit,
    /// What came wasn't a request that is served.
    BadInput,
    /// A read failed.
    ReadFault,
    /// A write failed. The command of the last request may have been done.
    WriteFault,
    /// A fault was answered.
    Faulted(Fault),
}

/// What a turn answers, and how the connection ends after it, if it does.
pub struct Turned {
    pub answer: Answer,
    pub end: Option<End>,
    /// Whether a whole request was answered.
    pub is_request: bool,
}

// Written out, so that dropping a turn is one call, not one for each part.
impl Drop for Turned {
    fn drop(self) {
        let Turned {
            answer: _,
            end: _,
            is_request: _,
        } = self;
    }
}

fn answered<D: Service>(
    alloc: Global,
    service: &mut D,
    wanted: &Wanted,
    at: Moment,
) -> Result<Reply, Fault>
    ensures { (es : List Exchange) × IsAnswered (spoken profile D.answers) service.old wanted.now
        at es result service.new }
{
    match request_of(alloc, wanted, at) {
        Ok(request) => service.answer(alloc, &request),
        Err(stop) => stopped(stop),
    }
}

/// What is answered where a request isn't in form.
pub(crate) fn stopped(stop: Stop) -> Result<Reply, Fault>
    ensures { result ≡ spec.stopped stop }
{
    match stop {
        Stop::Refused(refusal) => Ok(Reply::Refused(refusal)),
        Stop::Fault(fault) => Err(fault),
    }
}

/// How the connection ends after a request with this outcome, if it does.
pub(crate) fn end_of(outcome: &Result<Reply, Fault>, is_last: bool, closes: bool) -> Option<End>
    ensures { result ≡ spec.end_of outcome.now is_last closes }
{
    match outcome {
        Err(fault) => Some(End::Faulted(*fault)),
        Ok(_) => end_after_reply(is_last, closes),
    }
}

/// How the connection ends after a request that met no fault, if it does.
pub(crate) fn end_after_reply(is_last: bool, closes: bool) -> Option<End>
    ensures { (reply : Reply) → result ≡ spec.end_of (Ok reply) is_last closes }
{
    if is_last {
        Some(End::Limit)
    } else if closes {
        Some(End::Closed)
    } else {
        None
    }
}

/// The turn of a request that has this outcome.
pub fn turn_with(outcome: Result<Reply, Fault>, is_last: bool, closes: bool) -> Turned
    ensures { IsTurnWith outcome is_last closes result }
{
    let end = end_of(&outcome, is_last, closes);
    Turned {
        answer: Answer::of(outcome),
        end,
        is_request: true,
    }
}

/// The turn of this request, of which this is told. Where its status is 200 the response has these
/// labels; it is 304, and has no body, where the request is a GET and names their tag. It takes no
/// memory.
pub fn turn_told(told: Told, labels: Labels, wanted: &Wanted, is_last: bool) -> Turned
    ensures { IsTurnTold told labels wanted.now is_last result }
{
    let end = told.end(is_last, wanted.closes);
    Turned {
        answer: Answer::told(told).labelled(labels, wanted),
        end,
        is_request: true,
    }
}

/// The turn of a whole request for one of the registry's own routes, asked at this moment: the
/// request is formed, the service answers it where it is in form, and its outcome is put into an
/// answer. `is_last` says that this is the last request that its connection may have.
///
/// The connection ends after a fault, after the last request, and after a request that asks for it.
pub fn turn<D: Service>(
    alloc: Global,
    service: &mut D,
    wanted: &Wanted,
    at: Moment,
    is_last: bool,
) -> Turned
    ensures { Turns (spoken profile D.answers) service.old (request wanted.now at) is_last result
        service.new }
{
    let outcome = answered(alloc, service, wanted, at);
    turn_with(outcome, is_last, wanted.closes)
}

/// The turn of input that isn't a request: it is answered, and the connection ends. It takes no
/// memory.
pub fn turn_away(refusal: Refusal) -> Turned
    ensures { spec.TurnsAway (bad_input refusal) result }
{
    Turned {
        answer: Answer::of(Ok(Reply::Refused(refusal))),
        end: Some(End::BadInput),
        is_request: false,
    }
}

/// The turn of a request that there was no memory to read: the fault is answered, and the
/// connection ends. It takes no memory.
pub fn turn_starved() -> Turned
    ensures { spec.TurnsAway no_memory result }
{
    Turned {
        answer: Answer::of(Err(Fault::Memory)),
        end: Some(End::Faulted(Fault::Memory)),
        is_request: false,
    }
}
