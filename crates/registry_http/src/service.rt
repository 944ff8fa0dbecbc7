//! A registry as the service that connections ask.

ghost use Rattle.std.specs.Prelude.{◌≡◌, ◌≢◌, false, length, true};
ghost use Rattle.std.specs.List.{AllByRecursion};
ghost use Rattle.sqlite.specs.Held.{state};
ghost use Rattle.sqlite.specs.State.{Survives};
ghost use Rattle.registry_desk.specs.Promises.{KeepsStored, WasOpen};
ghost use Rattle.registry_desk.specs.Sending.{answers_as_apply};
ghost use Rattle.registry_desk.specs.Together.{AnsweredTogether, LeavesTogether, MeetFault};
ghost use Rattle.registry_desk.specs.TokenUsers.{IsAskedOpen, NamesUser};
ghost use Rattle.registry_http.specs.Services as spec;
ghost use Rattle.registry_http.specs.Services.{EachEndsByFault, EachEndsIfShut, EndTogether, EndsBy, EndsByFault, EndsIfShut, EndsShut, SendsByFault, SendsIfShut, applied, serving, shown};
ghost use Rattle.registry_packument.specs.Sendings.{failures_after};
ghost use Rattle.registry_packument.specs.declared.opener.Sent.TheVariants.{WriteFault};
ghost use Rattle.registry_rules.specs.Actions.{is_command};
ghost use Rattle.registry_service.proofs.DialectFacts.{profile_asks_queries};
ghost use Rattle.registry_service.specs.Dialects.{AsksOne};
ghost use Rattle.registry_service.specs.Sendings.{IsPackument, Sends};
ghost use Rattle.registry_service.specs.Turns.{AnswersEach, exchanges, profile};

use registry_desk::Registry;
use registry_names::{ByteOut, Fault, Ident, Moment};
use registry_packument::{Opener, Sent};
use registry_publish::TokenDigest;
use registry_rules::{Reply, Request};
use registry_service::{HttpService, PackumentService, Service, Turned, turn};
use registry_wire::Wanted;
use sqlite::Alter;
use std::alloc::Global;
use std::marker::Model;

/// A registry that answers HTTP requests, until a fault of the disk has shut it: then the service
/// is over. Contracts see its connection to the tables, and whether it is over.
pub struct RegistryService<S: Alter> {
    registry: Registry<S>,
    is_over: bool,
}

// Written out, so that dropping a service is one call, not one for each part.
impl<S: Alter + Drop> Drop for RegistryService<S> {
    fn drop(self) {
        let RegistryService {
            registry: _,
            is_over: _,
        } = self;
    }
}

impl<S: Alter> Model for RegistryService<S> {
    ghost use Rattle.registry_http.specs.Services.{Serving, serving, serving_code};

    ghost Value = { Serving S };

    ghost coded = { serving_code S.code };

    ghost view = { λ s. serving s.registry s.is_over };
}

impl<S: Alter> RegistryService<S> {
    /// A registry as a service, which isn't over. It takes no memory.
    pub fn new(registry: Registry<S>) -> RegistryService<S>
        ensures { result ≡ serving registry false }
    {
        RegistryService {
            registry,
            is_over: false,
        }
    }

    /// The user of the token with this digest, as `Registry::user_of` looks it up. `None` where no
    /// token has it. Nothing that is stored is changed.
    pub fn user_of(&mut self, alloc: Global, digest: &TokenDigest) -> Result<Option<Ident>, Fault>
        ensures names { NamesUser (shown S.Store self.old) (shown S.Store self.new)
            digest.now result }
        ensures asked { IsAskedOpen (shown S.Store self.old) (shown S.Store self.new) result }
        ensures opened { WasOpen (shown S.Store self.old) (shown S.Store self.new) }
        ensures stored { KeepsStored (shown S.Store self.old) (shown S.Store self.new) }
        ensures survives { Survives (shown S.Store self.old) (shown S.Store self.new) (λ _. ⊥) }
        ensures over { self.new.is_over ≡ self.old.is_over }
    {
        self.registry.user_of(alloc, digest)
    }

    /// A law: between requests no transaction is begun.
    pub fn between_requests(&self)
        ensures { (shown S.Store self.now).in_transaction ≡ false }
    {
        self.registry.between_requests();
    }

    /// The registry itself. It takes no memory.
    pub fn into_registry(self) -> Registry<S>
        ensures { self ≡ serving result self.is_over }
    {
        let RegistryService {
            registry,
            is_over: _,
        } = self;
        registry
    }
}

impl<S: Alter> Service for RegistryService<S> {
    ghost answers = { applied (shown S.Store) };

    ghost over = { λ s. s.is_over };

    /// Answers one request in one transaction, as `Registry::apply` does. After the fault
    /// `Database` it checks whether the registry is still open: if it isn't, or if the disk fails
    /// during the check, the service is over. If there is no memory for the check, `Memory` is
    /// returned, and the service goes on. A service that is over stays over.
    fn answer(&mut self, alloc: Global, request: &Request) -> Result<Reply, Fault>
        ensures answers { applied (shown S.Store) self.old request.now result self.new }
        ensures shut { EndsIfShut S.Store self.new result }
        ensures ends { EndsByFault S.Store self.old self.new result }
        ensures latched { self.old.is_over ≡ true → self.new.is_over ≡ true }
    {
        match asked(alloc, &mut self.registry, request) {
            Ok(reply) => Ok(reply),
            Err(Fault::Memory) => Err(Fault::Memory),
            Err(Fault::Database) => Err(look(&mut self.registry, &mut self.is_over)),
        }
    }

    /// Answers commands together, as `Registry::run_together` does: all are answered, or all meet one
    /// fault. After the fault `Database` it checks whether the registry is still open, as `answer`
    /// does, and the fault that is returned then is the outcome of all.
    fn answer_together(
        &mut self,
        alloc: Global,
        requests: &[Request],
        outcomes: &mut [Result<Reply, Fault>],
    )
        requires each { length outcomes.old ≡ length requests.now }
        requires commands { AllByRecursion (λ r. is_command r.what ≡ true) requests.now }
        ensures many { length outcomes.new ≡ length requests.now }
        ensures answers { AnswersEach (applied (shown S.Store)) self.old
            (exchanges requests.now outcomes.new) self.new }
        ensures one { EndTogether outcomes.new }
        ensures survives { Survives (shown S.Store self.old) (shown S.Store self.new)
            (LeavesTogether requests.now (shown S.Store self.old)) }
        ensures shut { EachEndsIfShut S.Store self.new outcomes.new }
        ensures ends { EachEndsByFault S.Store self.old self.new outcomes.new }
        ensures latched { self.old.is_over ≡ true → self.new.is_over ≡ true }
    {
        told_together(
            alloc,
            &mut self.registry,
            &mut self.is_over,
            requests,
            outcomes,
        );
    }

    fn is_over(&self) -> bool {
        self.is_over
    }
}

impl<S: Alter> HttpService for RegistryService<S> {
    ghost speaks = { profile };

    /// The turn of a request for one of the registry's own routes.
    fn turn(&mut self, alloc: Global, wanted: &Wanted, at: Moment, is_last: bool) -> Turned {
        turn(alloc, self, wanted, at, is_last)
    }

    /// Every command by these routes is asked alone.
    fn asks_one(&self, _wanted: &Wanted) -> bool
        ensures { result ≡ true → AsksOne profile _wanted.now }
    {
        true
    }

    ghost asks_queries = { profile_asks_queries };
}

impl<S: Alter> PackumentService for RegistryService<S> {
    /// Answers a query for a packument, and writes the packument, as `Registry::send_packument`
    /// does. After the fault `Database` it checks whether the registry is still open, as `answer`
    /// does: if it isn't, the service is over.
    fn send_packument<W: ByteOut, O: Opener>(
        &mut self,
        alloc: Global,
        request: &Request,
        writer: &mut W,
        opener: &O,
    ) -> Sent
        requires { IsPackument request.now.what }
        ensures sends { Sends (applied (shown S.Store)) (O.opens opener.now) self.old request.now
            result self.new (W.bytes writer.old) (W.bytes writer.new) (W.is_unknown writer.new) }
        ensures counted { W.failures writer.new ≡ failures_after result (W.failures writer.old) }
        ensures told { result ≢ WriteFault → W.is_unknown writer.new ≡ W.is_unknown writer.old }
        ensures unknown { W.is_unknown writer.old ≡ true → W.is_unknown writer.new ≡ true }
        ensures shut { SendsIfShut S.Store self.new result }
        ensures ends { SendsByFault S.Store self.old self.new result }
        ensures latched { self.old.is_over ≡ true → self.new.is_over ≡ true }
    {
        match sent(alloc, &mut self.registry, request, writer, opener) {
            Sent::Refused(refusal) => Sent::Refused(refusal),
            Sent::Whole => Sent::Whole,
            Sent::WriteFault => Sent::WriteFault,
            Sent::Broken {
                fault: Fault::Memory,
                has_started,
            } => Sent::Broken {
                fault: Fault::Memory,
                has_started,
            },
            Sent::Broken {
                fault: Fault::Database,
                has_started,
            } => Sent::Broken {
                fault: look(&mut self.registry, &mut self.is_over),
                has_started,
            },
        }
    }
}

// How a packument was sent, with all that is promised of it.
fn sent<S: Alter, W: ByteOut, O: Opener>(
    alloc: Global,
    registry: &mut Registry<S>,
    request: &Request,
    writer: &mut W,
    opener: &O,
) -> Sent
    requires asks { IsPackument request.now.what }
    ensures sends { Sends (answers_as_apply S.Store) (O.opens opener.now) registry.old request.now
        result registry.new (W.bytes writer.old) (W.bytes writer.new) (W.is_unknown writer.new) }
    ensures counted { W.failures writer.new ≡ failures_after result (W.failures writer.old) }
    ensures told { result ≢ WriteFault → W.is_unknown writer.new ≡ W.is_unknown writer.old }
    ensures unknown { W.is_unknown writer.old ≡ true → W.is_unknown writer.new ≡ true }
{
    registry.send_packument(alloc, request, writer, opener)
}

// The outcome of a request, with all that is promised of it.
fn asked<S: Alter>(
    alloc: Global,
    registry: &mut Registry<S>,
    request: &Request,
) -> Result<Reply, Fault>
    ensures { answers_as_apply S.Store registry.old request.now result registry.new }
{
    let outcome = registry.apply(alloc, request);
    registry.between_requests();
    outcome
}

// Answers commands together. Where the tables failed, all of them are told what a look at the registry
// gives.
fn told_together<S: Alter>(
    alloc: Global,
    registry: &mut Registry<S>,
    is_over: &mut bool,
    requests: &[Request],
    outcomes: &mut [Result<Reply, Fault>],
)
    requires each { length outcomes.old ≡ length requests.now }
    requires commands { AllByRecursion (λ r. is_command r.what ≡ true) requests.now }
    ensures many { length outcomes.new ≡ length requests.now }
    ensures answers { AnswersEach (applied (shown S.Store)) (serving registry.old is_over.old)
        (exchanges requests.now outcomes.new) (serving registry.new is_over.new) }
    ensures one { EndTogether outcomes.new }
    ensures survives { Survives (state S.Store registry.old) (state S.Store registry.new)
        (LeavesTogether requests.now (state S.Store registry.old)) }
    ensures shut { EachEndsIfShut S.Store (serving registry.new is_over.new) outcomes.new }
    ensures ends { EachEndsByFault S.Store (serving registry.old is_over.old)
        (serving registry.new is_over.new) outcomes.new }
    ensures latched { is_over.old ≡ true → is_over.new ≡ true }
{
    asked_together(alloc, registry, requests, outcomes);
    if !failed(outcomes) {
        return;
    }
    let fault = look(registry, is_over);
    tell_all(outcomes, fault);
}

// The outcomes of commands that share a commit, with all that is promised of them.
fn asked_together<S: Alter>(
    alloc: Global,
    registry: &mut Registry<S>,
    requests: &[Request],
    outcomes: &mut [Result<Reply, Fault>],
)
    requires each { length outcomes.old ≡ length requests.now }
    requires commands { AllByRecursion (λ r. is_command r.what ≡ true) requests.now }
    ensures many { length outcomes.new ≡ length requests.now }
    ensures together { AnsweredTogether S.Store registry.old registry.new requests.now
        outcomes.new }
    ensures idle { (state S.Store registry.new).in_transaction ≡ false }
{
    registry.run_together(alloc, requests, outcomes);
    registry.between_requests();
}

// Whether the tables failed for commands that were answered together.
fn failed(outcomes: &[Result<Reply, Fault>]) -> bool
    ensures { result ≡ spec.failed outcomes.now }
{
    matches!(outcomes, [Err(Fault::Database), ..])
}

// All are told this fault.
fn tell_all(outcomes: &mut [Result<Reply, Fault>], fault: Fault)
    ensures many { length outcomes.new ≡ length outcomes.old }
    ensures told { MeetFault fault outcomes.new }
{
    for outcome in outcomes.iter_mut() {
        *outcome = Err(fault);
    }
}

// Checks whether a registry that returned `Database` is still open, and gives the fault to return.
// The service is over where the registry is shut or the disk fails now, and stays over.
fn look<S: Alter>(registry: &mut Registry<S>, is_over: &mut bool) -> Fault
    ensures opened { WasOpen (state S.Store registry.old) (state S.Store registry.new) }
    ensures stored { KeepsStored (state S.Store registry.old) (state S.Store registry.new) }
    ensures survives { Survives (state S.Store registry.old) (state S.Store registry.new) (λ _. ⊥) }
    ensures idle { (state S.Store registry.new).in_transaction ≡ false }
    ensures shut { EndsShut (state S.Store registry.new) is_over.new result }
    ensures ends { EndsBy (state S.Store registry.old) (state S.Store registry.new)
        is_over.old is_over.new result }
    ensures latched { is_over.old ≡ true → is_over.new ≡ true }
{
    let seen = registry.is_open();
    registry.between_requests();
    match seen {
        Ok(true) => Fault::Database,
        Ok(false) | Err(Fault::Database) => {
            *is_over = true;
            Fault::Database
        }
        Err(Fault::Memory) => Fault::Memory,
    }
}
