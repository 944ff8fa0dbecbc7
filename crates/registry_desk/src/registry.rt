//! A registry over a connection to its tables.

ghost use Rattle.std.specs.Prelude.{◌≡◌, ◌≢◌, false, true, length, IfErr, IfNone, IfOk, IfSome, IsTrue, OnErr, OnOk};
ghost use Rattle.std.specs.List.{AllByRecursion};
ghost use Rattle.sqlite.specs.Held.{state};
ghost use Rattle.sqlite.specs.State.{HasCleanDisk, Survives};
ghost use Rattle.sqlite.specs.Steps.{over_memory};
ghost use Rattle.registry_rules.specs.Actions.{is_command};
ghost use Rattle.registry_rules.specs.Kept.{IsKept};
ghost use Rattle.registry_rules.specs.State.{nothing};
ghost use Rattle.registry_tables.specs.Archives.{HoldsArchives};
ghost use Rattle.registry_tables.specs.Effects.{registry_in, stored};
ghost use Rattle.registry_tables.specs.Fresh.{fresh};
ghost use Rattle.registry_tables.specs.Needs.{HoldsNeeds};
ghost use Rattle.registry_laws_history.specs.Headline.{Headline};
ghost use Rattle.registry_desk.specs.Promises.{Answered, GrowsHistory, HasHeadline, HidesUnread, HidesUnreadRun, HoldsReferences, HoldsSound, Keeps, KeepsForm, KeepsFormRun, KeepsRun, KeepsStored, KeepsSure, LooksOpen, Moves, RanTo, Served, ServedRun, ShutByFaults, StaysSure, Stepped, Stored, StoppedByDisk, SurvivesOne, SurvivesRun, Unchanged, WasOpen, WritesHistory};
ghost use Rattle.registry_desk.specs.Promises as promises;
ghost use Rattle.registry_desk.specs.Resting.{HoldsAsWritten, Rests, end_stored};
ghost use Rattle.registry_desk.specs.Adopted.{CanBeAdopted};
ghost use Rattle.registry_desk.specs.Caches.{IsCached, KeepsOutcome};
ghost use Rattle.registry_desk.specs.Sending.{AnswersOne, IsAnyPackument, IsPackument, Sends, answers_as_apply};
ghost use Rattle.registry_desk.specs.Together.{AnsweredTogether};
ghost use Rattle.registry_desk.specs.Views.{asks_packument};
ghost use Rattle.registry_packument.specs.Sendings.{failures_after};
ghost use Rattle.registry_packument.specs.declared.opener.Sent.TheVariants.{WriteFault};

use crate::answer::identify_and_answer;
use crate::cache::{Caches, keep_reply};
use crate::open::{Base, settle_as};
use crate::sending::sent;
use crate::texts::queried;
use crate::together::answer_together;
use crate::view::View;
use registry_names::{ByteOut, Fault, Name};
use registry_packument::{Opener, Sent};
use registry_rows::{commit, fault_of};
use registry_rules::laws::requests_are_in_form;
use registry_rules::{Action, Reply, Request};
use sqlite::{Alter, Connection, Error, ErrorCode, MemStore};
use std::alloc::Global;
use std::marker::Model;

/// A statement that is compiled to see whether a connection is open. It is never run.
const PROBE: &str = "COMMIT";

/// A registry of packages, over any store that keeps its tables. Contracts see the connection.
///
/// Between requests it has no transaction, its tables are in form, each grant is on a package of
/// its organisation's scope, and all that it sees was committed. A fault of the disk may shut it
/// for good; then every request is answered by a fault.
///
/// It keeps the texts of the packuments that were asked for last, full, abbreviated and as npm reads
/// them, and the archives. Between requests each is such a packument of its package, of which a
/// version lives, or the archive of its version, by what is stored.
pub struct Registry<S: Alter> {
    pub(crate) conn: Connection<S>,
    pub(crate) caches: Caches,
}

// Written out, so that to drop a registry is one call and not one for each part.
impl<S: Alter + Drop> Drop for Registry<S> {
    fn drop(self) {
        let Registry { conn: _, caches: _ } = self;
    }
}

impl<S: Alter> Model for Registry<S> {
    ghost use Rattle.sqlite.specs.Held.{Held, held_code, state};
    ghost use Rattle.registry_desk.specs.Caches.{IsCached};

    ghost Value = { Held S };

    ghost coded = { held_code S.code };

    ghost view = { λ r. r.conn };

    ghost invariant = { λ r. IsCached (state S.Store r.conn) r.caches };
}

impl Registry<MemStore> {
    /// A new registry in memory, or a fault. Nothing was asked of a new one yet.
    pub fn in_memory(alloc: Global) -> Result<Registry<MemStore>, Fault>
        ensures fresh { IfOk result (λ r. stored (state over_memory r) ≡ fresh) }
        ensures empty { IfOk result (λ r. registry_in (state over_memory r) ≡ nothing) }
        ensures sound { IfOk result (λ r. HoldsSound (state over_memory r)) }
        ensures refers { IfOk result (λ r. HoldsReferences (stored (state over_memory r))) }
        ensures archives { IfOk result (λ r. HoldsArchives (stored (state over_memory r))) }
        ensures form { IfOk result (λ r. IsKept (registry_in (state over_memory r))) }
        ensures served { IfOk result (λ r. IsTrue (state over_memory r).is_open) }
    {
        let Ok(mut conn) = Connection::open_in_memory(alloc) else {
            return Err(Fault::Memory);
        };
        settle_as(alloc, &mut conn, Base::Empty)?;
        let caches = Caches::new(alloc)?;
        Ok(Registry { conn, caches })
    }

    /// Answers requests on a new registry in memory, in their order, and gives the registry that
    /// they leave with the outcomes: all that a further request supposes of it is so. A fault comes
    /// where no registry could be made, or no room for the outcomes was left: then nothing was run.
    pub fn run_in_memory(
        alloc: Global,
        requests: &[Request],
    ) -> Result<(Registry<MemStore>, Vec<Result<Reply, Fault>>), Fault>
        ensures headline { IfOk result (λ ran.
            Headline requests.now ran.1.items (registry_in (state over_memory ran.0))) }
        ensures stored { IfOk result (λ ran.
            stored (state over_memory ran.0) ≡ end_stored requests.now ran.1.items fresh) }
        ensures sound { IfOk result (λ ran. HoldsSound (state over_memory ran.0)) }
        ensures archives { IfOk result (λ ran. HoldsArchives (stored (state over_memory ran.0))) }
        ensures form { IfOk result (λ ran. IsKept (registry_in (state over_memory ran.0))) }
        ensures served { IfOk result (λ ran. IsTrue (state over_memory ran.0).is_open) }
    {
        let mut registry = Registry::in_memory(alloc)?;
        let outcomes = registry.run(alloc, requests)?;
        Ok((registry, outcomes))
    }
}

impl<S: Alter> Registry<S> {
    /// Answers one request: the reply, and the request's step is made; or a fault, and nothing has
    /// changed, as long as the registry is open.
    ///
    /// What is said here holds as long as the disk returns what was written to it, which memory
    /// always does; and, of a withdrawal alone, of a registry where the needs that are stored are
    /// those of live versions. So it is in a new one, and every request keeps it. That a fault, a
    /// refusal and a query change nothing doesn't suppose it.
    ///
    /// A crash leaves what is stored, as long as the registry is open, as it is after a reply. A
    /// fault of the disk may shut it: then a crash leaves what it could have left before or, if the
    /// registry was open before, what the request makes. Nobody knows which until the files are
    /// opened again.
    pub fn apply(&mut self, alloc: Global, request: &Request) -> Result<Reply, Fault>
        ensures answer { Answered (state S.Store self.old) (state S.Store self.new)
            request.now result }
        ensures served { Served (state S.Store self.old) (state S.Store self.new) result }
        ensures opened { WasOpen (state S.Store self.old) (state S.Store self.new) }
        ensures unchanged { Unchanged (state S.Store self.old) (state S.Store self.new)
            request.now result }
        ensures step { Stepped (state S.Store self.old) (state S.Store self.new)
            request.now result }
        ensures moves { Moves (state S.Store self.old) (state S.Store self.new)
            request.now result }
        ensures history { GrowsHistory (state S.Store self.old) (state S.Store self.new)
            request.now result }
        ensures hidden { HidesUnread (state S.Store self.old) (state S.Store self.new)
            request.now result }
        ensures written { HoldsAsWritten (state S.Store self.new) }
        ensures needs { Keeps (state S.Store self.old) (state S.Store self.new)
            request.now HoldsNeeds }
        ensures refers { Keeps (state S.Store self.old) (state S.Store self.new)
            request.now HoldsReferences }
        ensures archives { Keeps (state S.Store self.old) (state S.Store self.new)
            request.now HoldsArchives }
        ensures form { KeepsForm (state S.Store self.old) (state S.Store self.new) request.now }
        ensures survives { SurvivesOne (state S.Store self.old) (state S.Store self.new)
            request.now }
        ensures durable { StaysSure (state S.Store self.new) }
    {
        requests_are_in_form(request);
        answer_request(alloc, &mut self.conn, &mut self.caches, request)
    }

    /// Answers a query for a full packument, and writes that to a stream: first what opens it by its
    /// length, then its text. Unless the text is kept already, none of the whole is made, and of the
    /// versions' documents one is held at a time. No text is kept that wasn't.
    ///
    /// It is one request that is answered: all that is said of an outcome of
    /// [`apply`](Registry::apply) holds of its outcome. The outcome of a packument that was written
    /// whole is its text, and so it is of one that a failed write broke off. The outcome of one
    /// that is broken is the fault; then a prefix was written of what opens a document that might
    /// have been answered, and of the document. A refusal is handed back, and nothing is written of
    /// it. In every case nothing that is stored is changed.
    ///
    /// The query is decided in a transaction. Where the text isn't kept, the packument is counted
    /// after it, in a walk over the versions, and written in a second one. What the second one gives
    /// is never more than was counted, and where it is less, the packument is broken by `Database`.
    pub fn send_packument<W: ByteOut, O: Opener>(
        &mut self,
        alloc: Global,
        request: &Request,
        writer: &mut W,
        opener: &O,
    ) -> Sent
        requires asks { IsPackument request.now.what }
        ensures sends { Sends (answers_as_apply S.Store) (O.opens opener.now) self.old request.now
            result self.new (W.bytes writer.old) (W.bytes writer.new) (W.is_unknown writer.new) }
        ensures stored { KeepsStored (state S.Store self.old) (state S.Store self.new) }

        // Only a failed write is counted, and only it makes the bytes unknown, for good.
        ensures counted { W.failures writer.new ≡ failures_after result (W.failures writer.old) }
        ensures told { result ≢ WriteFault → W.is_unknown writer.new ≡ W.is_unknown writer.old }
        ensures unknown { W.is_unknown writer.old ≡ true → W.is_unknown writer.new ≡ true }
    {
        match &request.what {
            Action::Packument { package } => sent(
                alloc,
                &mut self.conn,
                &mut self.caches,
                request,
                package,
                writer,
                opener,
            ),
            _ => unreachable!(),
        }
    }

    /// Answers requests in their order, as [`apply`](Registry::apply) does. Room for all outcomes
    /// is taken first: where that is refused, the answer is `Memory` and nothing was run.
    ///
    /// A crash leaves what is stored, as long as the registry is open. Where a fault of the disk
    /// has shut it, no reply is lost: a crash leaves what was stored at the last one, or before the
    /// first request what it could have left, or what a request makes that was answered by a fault
    /// since. A registry that was shut from the first request on leaves what it could have left.
    pub fn run(
        &mut self,
        alloc: Global,
        requests: &[Request],
    ) -> Result<Vec<Result<Reply, Fault>>, Fault>
        ensures many { IfOk result (λ outcomes. length outcomes.items ≡ length requests.now) }
        ensures headline { IfOk result (λ outcomes. HasHeadline (state S.Store self.old)
            (state S.Store self.new) requests.now outcomes.items) }
        ensures history { IfOk result (λ outcomes. WritesHistory (state S.Store self.old)
            (state S.Store self.new) requests.now outcomes.items) }
        ensures hidden { IfOk result (λ outcomes. HidesUnreadRun (state S.Store self.old)
            (state S.Store self.new) requests.now outcomes.items) }
        ensures ran { IfOk result (λ outcomes. RanTo (state S.Store self.old)
            (state S.Store self.new) requests.now outcomes.items) }
        ensures stored { IfOk result (λ outcomes. Stored (state S.Store self.old)
            (state S.Store self.new) requests.now outcomes.items) }
        ensures served { IfOk result (λ outcomes. ServedRun (state S.Store self.old)
            (state S.Store self.new) outcomes.items) }
        ensures opened { WasOpen (state S.Store self.old) (state S.Store self.new) }
        ensures written { HoldsAsWritten (state S.Store self.new) }
        ensures needs { KeepsRun (state S.Store self.old) (state S.Store self.new)
            requests.now HoldsNeeds }
        ensures refers { KeepsRun (state S.Store self.old) (state S.Store self.new)
            requests.now HoldsReferences }
        ensures archives { KeepsRun (state S.Store self.old) (state S.Store self.new)
            requests.now HoldsArchives }
        ensures form { KeepsFormRun (state S.Store self.old) (state S.Store self.new)
            requests.now }
        ensures survives { IfOk result (λ outcomes. SurvivesRun (state S.Store self.old)
            (state S.Store self.new) requests.now outcomes.items) }
        ensures durable { KeepsSure (state S.Store self.old) (state S.Store self.new) }
        ensures closes { OnOk result
            (ShutByFaults (state S.Store self.old) (state S.Store self.new)) }
        ensures not_run { OnErr result (self.new ≡ self.old) }
        ensures memory { IfErr result (λ fault. fault ≡ Fault.Memory) }
    {
        self.holds_as_written();
        let mut outcomes = Vec::with_capacity(alloc, requests.len())?;
        for request in requests {
            let outcome = self.apply(alloc, request);
            self.between_requests();
            match outcomes.push(outcome) {
                Ok(()) => {}
                Err(_) => unreachable!(),
            }
        }
        Ok(outcomes)
    }

    /// Answers commands together: in one transaction, which is committed once, before any of them is
    /// answered. Their outcomes take the places of `outcomes`, of which there are as many.
    ///
    /// All are answered, or all meet one fault: `Memory` where there was none for one of them, and
    /// `Database` where the tables failed. A fault changes nothing, as long as the registry is
    /// open. Each outcome is that of [`apply`](Registry::apply), asked in its turn: what the
    /// earlier commands made is seen, and a command that is refused changes nothing and leaves the
    /// others as they are.
    ///
    /// A crash leaves what is stored, as long as the registry is open. Where a fault of the disk has
    /// shut it, a crash leaves what it could have left before or, if the registry was open before,
    /// what all of them make, and never what only some of them make.
    ///
    /// A command alone costs what `apply` costs. Where nothing is asked, nothing is done.
    pub fn run_together(
        &mut self,
        alloc: Global,
        requests: &[Request],
        outcomes: &mut [Result<Reply, Fault>],
    )
        requires each { length outcomes.old ≡ length requests.now }
        requires commands { AllByRecursion (λ r. is_command r.what ≡ true) requests.now }
        ensures many { length outcomes.new ≡ length requests.now }
        ensures together { AnsweredTogether S.Store self.old self.new requests.now outcomes.new }
    {
        answer_together(alloc, &mut self.conn, &mut self.caches, requests, outcomes);
    }

    /// From now on each text of a packument and each archive that is kept keeps its digest, and so
    /// does each that is answered. Nothing else changes.
    pub fn make_digests(&mut self)
        ensures { self.new ≡ self.old }
    {
        self.caches.makes_digests = true;
    }

    /// A law: between requests no transaction is begun.
    pub fn between_requests(&self)
        ensures { (state S.Store self.now).in_transaction ≡ false }
    {
        let _conn = &self.conn;
    }

    // A law: so it is of each registry between requests.
    fn holds_as_written(&self)
        ensures { HoldsAsWritten (state S.Store self.now) }
    {
        let _conn = &self.conn;
    }

    /// Whether it is open. If not, a fault of the disk has shut it for good. Nothing that is stored
    /// is changed.
    ///
    /// `Memory` is answered where there was no memory to look, and `Database` where the disk failed
    /// at the look.
    pub fn is_open(&mut self) -> Result<bool, Fault>
        ensures seen { LooksOpen (state S.Store self.old) (state S.Store self.new) result }
        ensures opened { WasOpen (state S.Store self.old) (state S.Store self.new) }
        ensures stored { KeepsStored (state S.Store self.old) (state S.Store self.new) }
        ensures survives { Survives (state S.Store self.old) (state S.Store self.new) (λ _. ⊥) }
        ensures faults { StoppedByDisk (state S.Store self.old) (state S.Store self.new) result }
    {
        looks_open(&mut self.conn)
    }

    /// Gives the connection, which is between requests: it shows what the registry held, and a
    /// crash leaves what it could have left. [`adopt`](Registry::adopt) takes it again. Over files,
    /// its `close` copies the log into the database file.
    pub fn release(self) -> Connection<S>
        ensures same { result ≡ self }
        ensures rests { Rests (state S.Store result) }
        ensures rises { CanBeAdopted (state S.Store result) }
    {
        let Registry { conn, caches: _ } = self;
        conn
    }
}

// Whether a connection is open. One that isn't compiles no statement.
fn looks_open<S: Alter>(conn: &mut Connection<S>) -> Result<bool, Fault>
    requires rests { Rests (state S.Store conn.old) }
    ensures rests { Rests (state S.Store conn.new) }
    ensures seen { LooksOpen (state S.Store conn.old) (state S.Store conn.new) result }
    ensures opened { WasOpen (state S.Store conn.old) (state S.Store conn.new) }
    ensures stored { KeepsStored (state S.Store conn.old) (state S.Store conn.new) }
    ensures survives { Survives (state S.Store conn.old) (state S.Store conn.new) (λ _. ⊥) }
    ensures faults { StoppedByDisk (state S.Store conn.old) (state S.Store conn.new) result }
{
    match conn.prepare(PROBE) {
        Ok(_statement) => Ok(true),
        Err(error) => seen_by(error),
    }
}

// What is seen where no statement is compiled. Only a shut connection says that it is closed.
fn seen_by(error: Error) -> Result<bool, Fault>
    ensures { result ≡ promises.seen_by error }
{
    match error {
        Error::SqliteFailure(ErrorCode::Closed) => Ok(false),
        error => Err(fault_of(error)),
    }
}

// The reply, which is kept if it is a packument or an archive. Where a fault comes nothing is kept
// that wasn't before.
fn answer_request<S: Alter>(
    alloc: Global,
    conn: &mut Connection<S>,
    caches: &mut Caches,
    request: &Request,
) -> Result<Reply, Fault>
    requires cached { IsCached (state S.Store conn.old) caches.old }
    ensures cached { IsCached (state S.Store conn.new) caches.new }
    ensures answers { AnswersOne (state S.Store conn.old) (state S.Store conn.new)
        request.now result }
    ensures kept { KeepsOutcome request.now.what caches.old caches.new result }
{
    match asked_packument(&request.what) {
        Some((view, package)) => queried(alloc, conn, caches, view, request, package),
        None => answer_in_transaction(alloc, conn, caches, request),
    }
}

// The view and the package of the packument that is asked for. `None` where none is.
fn asked_packument(what: &Action) -> Option<(View, &Name)>
    ensures some { IfSome result (λ asked. what.now ≡ asks_packument asked.0 asked.1.now) }
    ensures none { IfNone result (¬ IsAnyPackument what.now) }
{
    match what {
        Action::Packument { package } => Some((View::Full, package)),
        Action::AbbreviatedPackument { package } => Some((View::Abbreviated, package)),
        Action::RevisedPackument { package } => Some((View::Revised, package)),
        _ => None,
    }
}

// The same of another request, in one transaction, which rolls back where `?` drops it. What is
// replied is kept after the commit.
fn answer_in_transaction<S: Alter>(
    alloc: Global,
    conn: &mut Connection<S>,
    caches: &mut Caches,
    request: &Request,
) -> Result<Reply, Fault>
    requires cached { IsCached (state S.Store conn.old) caches.old }
    requires other { ¬ IsAnyPackument request.now.what }
    ensures cached { IsCached (state S.Store conn.new) caches.new }
    ensures answers { AnswersOne (state S.Store conn.old) (state S.Store conn.new)
        request.now result }
    ensures kept { KeepsOutcome request.now.what caches.old caches.new result }
{
    let mut tx = conn.transaction();
    let reply = identify_and_answer(alloc, &mut tx, caches, request)?;
    match commit(tx) {
        Ok(()) => {
            keep_reply(alloc, caches, &request.what, &reply);
            Ok(reply)
        }
        Err(fault) => Err(fault),
    }
}
