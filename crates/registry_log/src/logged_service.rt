//! A registry as a service that may keep a log.

ghost use Rattle.std.specs.Prelude.{◌≡◌, ◌<◌, [], length, true};
ghost use Rattle.std.specs.List.{AllByRecursion};
ghost use Rattle.sqlite.specs.State.{HasCleanDisk, Survives};
ghost use Rattle.registry_desk.specs.Together.{LeavesTogether};
ghost use Rattle.registry_http.specs.Services.{EachEndsByFault, EachEndsIfShut, EndTogether, EndsByFault, EndsIfShut, applied, shown};
ghost use Rattle.registry_log.specs.Logs.{AreFirstAsked, logging};
ghost use Rattle.registry_log.specs.LookUps.{FindsUser, LooksUp, MayNameEach, NamesAsker, NamesAskers, NamesEach};
ghost use Rattle.registry_rules.specs.Actions.{is_command};
ghost use Rattle.registry_rules.specs.declared.request.Credential.TheVariants.{Token};
ghost use Rattle.registry_tables.specs.Effects.{stored};
ghost use Rattle.registry_service.proofs.DialectFacts.{profile_asks_queries};
ghost use Rattle.registry_service.specs.Dialects.{AsksOne};
ghost use Rattle.registry_service.specs.Turns.{AnswersAsBefore, AnswersEach, exchanges, profile};

use crate::log::{Asked, Log};
use crate::log_clock::LogClock;
use crate::sink::LineSink;
use registry_http::RegistryService;
use registry_names::{Fault, Ident, Moment};
use registry_publish::TokenDigest;
use registry_rules::{Credential, Reply, Request};
use registry_service::{AnsweredCommand, HttpService, Service, Turned, turn};
use registry_wire::Wanted;
use sqlite::Alter;
use std::alloc::Global;
use std::collections::VecDeque;
use std::marker::Model;

/// A registry that is asked over HTTP, and the log of what was answered, if one is kept. Contracts see
/// the registry alone, as those of a [`RegistryService`] do: a log changes nothing of it.
///
/// Who asks is looked up, by the token, only where a log is kept.
pub struct LoggedService<S: Alter, K: LogClock, W: LineSink> {
    inner: RegistryService<S>,
    log: Option<Log<K, W>>,
}

// Written out, so that to drop a service is one call and not one for each part.
impl<S: Alter + Drop, K: LogClock + Drop, W: LineSink + Drop> Drop for LoggedService<S, K, W> {
    fn drop(self) {
        let LoggedService { inner: _, log: _ } = self;
    }
}

impl<S: Alter, K: LogClock, W: LineSink> Model for LoggedService<S, K, W> {
    ghost use Rattle.registry_http.specs.Services.{Serving, serving_code};

    ghost Value = { Serving S };

    ghost coded = { serving_code S.code };

    ghost view = { λ s. s.inner };
}

impl<S: Alter, K: LogClock, W: LineSink> LoggedService<S, K, W> {
    /// A registry as a service, and its log, if one is to be kept.
    pub fn new(inner: RegistryService<S>, log: Option<Log<K, W>>) -> LoggedService<S, K, W>
        ensures { result ≡ inner }
    {
        LoggedService { inner, log }
    }

    /// Says a line in the log, if one is kept.
    pub fn say(&mut self, text: &str)
        ensures { self.new ≡ self.old }
    {
        match &mut self.log {
            Some(log) => log.say(text),
            None => {}
        }
    }
}

impl<S: Alter, K: LogClock + Drop, W: LineSink + Drop> LoggedService<S, K, W> {
    /// The registry without its log.
    pub fn into_inner(self) -> RegistryService<S>
        ensures { result ≡ self }
    {
        let LoggedService { inner, log: _ } = self;
        inner
    }
}

impl<S: Alter, K: LogClock, W: LineSink> Service for LoggedService<S, K, W> {
    ghost answers = { applied (shown S.Store) };

    ghost over = { λ s. s.is_over };

    /// Answers one request as a [`RegistryService`] does. Where a log is kept, the caller is
    /// looked up first. The service is over exactly as a [`RegistryService`] is: where the registry
    /// was seen to be shut, only by that fault, and then for good.
    fn answer(&mut self, alloc: Global, request: &Request) -> Result<Reply, Fault>
        ensures answers { applied (shown S.Store) self.old request.now result self.new }
        ensures shut { EndsIfShut S.Store self.new result }
        ensures ends { EndsByFault S.Store self.old self.new result }
        ensures latched { self.old.is_over ≡ true → self.new.is_over ≡ true }
    {
        match &mut self.log {
            Some(log) => asked(alloc, &mut self.inner, log, request),
            None => self.inner.answer(alloc, request),
        }
    }

    /// Answers commands together as a [`RegistryService`] does. Where a log is kept, their callers are
    /// looked up first, and their turns are to be noted in the order of the requests. Where there is no
    /// memory to remember them all, the last ones are noted as if the registry hadn't been asked.
    fn answer_together(
        &mut self,
        alloc: Global,
        requests: &[Request],
        outcomes: &mut [Result<Reply, Fault>],
    )
        requires each { length outcomes.old ≡ length requests.now }
        requires commands { AllByRecursion (λ r. is_command r.what ≡ true) requests.now }
        ensures many { length outcomes.new ≡ length requests.now }
        ensures answers { AnswersEach (applied (shown S.Store)) self.old
            (exchanges requests.now outcomes.new) self.new }
        ensures one { EndTogether outcomes.new }
        ensures survives { Survives (shown S.Store self.old) (shown S.Store self.new)
            (LeavesTogether requests.now (shown S.Store self.old)) }
        ensures shut { EachEndsIfShut S.Store self.new outcomes.new }
        ensures ends { EachEndsByFault S.Store self.old self.new outcomes.new }
        ensures latched { self.old.is_over ≡ true → self.new.is_over ≡ true }
    {
        match &mut self.log {
            Some(log) => asked_together(alloc, &mut self.inner, log, requests, outcomes),
            None => self.inner.answer_together(alloc, requests, outcomes),
        }
    }

    fn is_over(&self) -> bool {
        self.inner.is_over()
    }

    fn note(&mut self, wanted: Option<&Wanted>, turned: &Turned) {
        match &mut self.log {
            Some(log) => log.note(wanted, turned),
            None => {}
        }
    }

    fn note_command(&mut self, command: &AnsweredCommand<'_>) {
        match &mut self.log {
            Some(log) => log.note_command(command),
            None => {}
        }
    }

    /// Where a log is kept, looks up the users of requests that the registry wasn't asked.
    fn look_up(&mut self, alloc: Global) {
        match &mut self.log {
            Some(log) => name_all(alloc, &mut self.inner, log),
            None => {}
        }
    }

    fn rest(&mut self) {
        match &mut self.log {
            Some(log) => log.rest(),
            None => {}
        }
    }
}

impl<S: Alter, K: LogClock, W: LineSink> HttpService for LoggedService<S, K, W> {
    ghost speaks = { profile };

    /// The turn of a request for one of the registry's own routes.
    fn turn(&mut self, alloc: Global, wanted: &Wanted, at: Moment, is_last: bool) -> Turned {
        turn(alloc, self, wanted, at, is_last)
    }

    /// Every command by these routes is asked alone.
    fn asks_one(&self, _wanted: &Wanted) -> bool
        ensures { result ≡ true → AsksOne profile _wanted.now }
    {
        true
    }

    ghost asks_queries = { profile_asks_queries };
}

// The outcome of a request of which a log is kept.
fn asked<S: Alter, K: LogClock, W: LineSink>(
    alloc: Global,
    inner: &mut RegistryService<S>,
    log: &mut Log<K, W>,
    request: &Request,
) -> Result<Reply, Fault>
    ensures answers { applied (shown S.Store) inner.old request.now result inner.new }
    ensures shut { EndsIfShut S.Store inner.new result }
    ensures ends { EndsByFault S.Store inner.old inner.new result }
    ensures latched { inner.old.is_over ≡ true → inner.new.is_over ≡ true }
    ensures names { NamesAsker (shown S.Store inner.old) (shown S.Store inner.new) request.now
        log.old log.new }
{
    let user = user_of(alloc, inner, &request.who);
    let begun = log.start_micros();
    let outcome = inner.answer(alloc, request);
    log.answered(request.at, user, begun);
    outcome
}

// The outcomes of commands that are asked together, of which a log is kept.
fn asked_together<S: Alter, K: LogClock, W: LineSink>(
    alloc: Global,
    inner: &mut RegistryService<S>,
    log: &mut Log<K, W>,
    requests: &[Request],
    outcomes: &mut [Result<Reply, Fault>],
)
    requires each { length outcomes.old ≡ length requests.now }
    requires commands { AllByRecursion (λ r. is_command r.what ≡ true) requests.now }
    ensures many { length outcomes.new ≡ length requests.now }
    ensures answers { AnswersEach (applied (shown S.Store)) inner.old
        (exchanges requests.now outcomes.new) inner.new }
    ensures one { EndTogether outcomes.new }
    ensures survives { Survives (shown S.Store inner.old) (shown S.Store inner.new)
        (LeavesTogether requests.now (shown S.Store inner.old)) }
    ensures shut { EachEndsIfShut S.Store inner.new outcomes.new }
    ensures ends { EachEndsByFault S.Store inner.old inner.new outcomes.new }
    ensures latched { inner.old.is_over ≡ true → inner.new.is_over ≡ true }
    ensures names { 0 < length requests.now → NamesAskers (shown S.Store inner.old)
        (shown S.Store inner.new) requests.now log.old log.new }
{
    // Where nothing is asked, nobody is looked up.
    if requests.is_empty() {
        return;
    }
    let asked = known(alloc, inner, requests);
    let begun = log.start_micros();
    inner.answer_together(alloc, requests, outcomes);
    log.answered_together(asked, begun);
}

// Who asks these requests, and when. Where there is no memory for all of them, the last ones are left
// out.
fn known<S: Alter>(
    alloc: Global,
    inner: &mut RegistryService<S>,
    requests: &[Request],
) -> VecDeque<Asked>
    ensures first { AreFirstAsked requests.now result.items }
    ensures before { AnswersAsBefore (applied (shown S.Store)) inner.old inner.new }
    ensures over { inner.new.is_over ≡ inner.old.is_over }
    ensures looks { LooksUp (shown S.Store inner.old) (shown S.Store inner.new) }
    ensures named { HasCleanDisk (shown S.Store inner.new)
        → MayNameEach (stored (shown S.Store inner.old)) requests.now result.items }
{
    let mut asked = VecDeque::new(alloc);
    for request in requests {
        let user = user_of(alloc, inner, &request.who);
        let next = Asked {
            at: request.at,
            user,
        };
        if asked.push_back(next).is_err() {
            return asked;
        }
    }
    asked
}

// Looks up the users of the requests that lack one, and puts their lines, one each.
fn name_all<S: Alter, K: LogClock, W: LineSink>(
    alloc: Global,
    inner: &mut RegistryService<S>,
    log: &mut Log<K, W>,
)
    ensures before { AnswersAsBefore (applied (shown S.Store)) inner.old inner.new }
    ensures over { inner.new.is_over ≡ inner.old.is_over }
    ensures names { NamesEach (shown S.Store inner.old) (shown S.Store inner.new) log.old.unnamed
        (logging log.old.waiting log.old.answered log.old.later []) log.new }
{
    let unnamed = log.take_unnamed();
    for request in &unnamed {
        let user = found_user(alloc, inner, &request.token);
        log.name(request, &user);
    }
}

// The user whose token is shown. `None` where it isn't a user's, or that can't be looked up. What may be
// answered afterwards might have been answered before.
fn user_of<S: Alter>(
    alloc: Global,
    inner: &mut RegistryService<S>,
    who: &Credential,
) -> Option<Ident>
    ensures before { AnswersAsBefore (applied (shown S.Store)) inner.old inner.new }
    ensures over { inner.new.is_over ≡ inner.old.is_over }
    ensures looks { LooksUp (shown S.Store inner.old) (shown S.Store inner.new) }
    ensures finds { FindsUser (shown S.Store inner.old) (shown S.Store inner.new) who.now result }
{
    match who {
        Credential::Token(digest) => found_user(alloc, inner, digest),
        Credential::Operator | Credential::User(_) | Credential::Anonymous => None,
    }
}

// The user of a token. `None` where it isn't a user's, or that can't be looked up. What may be answered
// afterwards might have been answered before.
fn found_user<S: Alter>(
    alloc: Global,
    inner: &mut RegistryService<S>,
    token: &TokenDigest,
) -> Option<Ident>
    ensures before { AnswersAsBefore (applied (shown S.Store)) inner.old inner.new }
    ensures over { inner.new.is_over ≡ inner.old.is_over }
    ensures looks { LooksUp (shown S.Store inner.old) (shown S.Store inner.new) }
    ensures finds { FindsUser (shown S.Store inner.old) (shown S.Store inner.new)
        (Token token.now) result }
{
    let found = inner.user_of(alloc, token);
    inner.between_requests();
    found.unwrap_or(None)
}
