//! Commands that are answered together: in one transaction, which is committed once.

ghost use Rattle.std.specs.Prelude.{◌≡◌, ◌<◌, true, length, IfErr, IsTrue, OnOk};
ghost use Rattle.std.specs.List.{AllByRecursion};
ghost use Rattle.sqlite.specs.Held.{state};
ghost use Rattle.sqlite.specs.State.{HasCleanDisk};
ghost use Rattle.registry_rows.specs.Frames.{Stays};
ghost use Rattle.registry_rules.specs.Actions.{is_command};
ghost use Rattle.registry_tables.specs.Effects.{InForm, shown};
ghost use Rattle.registry_desk.specs.Caches.{HasAnswers, KeepNoMore};
ghost use Rattle.registry_desk.specs.Resting.{HoldsAsWritten, Rests};
ghost use Rattle.registry_desk.specs.Together.{AnsweredTogether, AreAnsweredInside, FailTogether, MeetFault};

use crate::answer::identify_and_answer;
use crate::cache::Caches;
use registry_names::Fault;
use registry_rows::commit;
use registry_rules::laws::requests_are_in_form;
use registry_rules::{Reply, Request};
use sqlite::{Alter, Connection, Transaction};
use std::alloc::Global;

/// Answers commands together. Their outcomes take the places of `outcomes`: all are answered, or
/// all meet one fault.
pub(crate) fn answer_together<S: Alter>(
    alloc: Global,
    conn: &mut Connection<S>,
    caches: &mut Caches,
    requests: &[Request],
    outcomes: &mut [Result<Reply, Fault>],
)
    requires rests { Rests (state S.Store conn.old) }
    requires right { HasAnswers (state S.Store conn.old) caches.old }
    requires each { length outcomes.old ≡ length requests.now }
    requires commands { AllByRecursion (λ r. is_command r.what ≡ true) requests.now }
    ensures rests { Rests (state S.Store conn.new) }
    ensures right { HasAnswers (state S.Store conn.new) caches.new }
    ensures no_more { KeepNoMore caches.old caches.new }
    ensures many { length outcomes.new ≡ length requests.now }
    ensures together { AnsweredTogether S.Store conn.old conn.new requests.now outcomes.new }
{
    // Where nothing is asked, nothing is committed.
    if requests.is_empty() {
        return;
    }
    if let Err(fault) = answer_and_commit(alloc, conn, caches, requests, outcomes) {
        meet(outcomes, fault);
    }
}

// All of them in one transaction, which rolls back where `?` drops it.
fn answer_and_commit<S: Alter>(
    alloc: Global,
    conn: &mut Connection<S>,
    caches: &mut Caches,
    requests: &[Request],
    outcomes: &mut [Result<Reply, Fault>],
) -> Result<(), Fault>
    requires rests { Rests (state S.Store conn.old) }
    requires right { HasAnswers (state S.Store conn.old) caches.old }
    requires some { 0 < length requests.now }
    requires each { length outcomes.old ≡ length requests.now }
    requires commands { AllByRecursion (λ r. is_command r.what ≡ true) requests.now }
    ensures rests { Rests (state S.Store conn.new) }
    ensures right { HasAnswers (state S.Store conn.new) caches.new }
    ensures no_more { KeepNoMore caches.old caches.new }
    ensures many { length outcomes.new ≡ length requests.now }
    ensures ok { OnOk result
        (AnsweredTogether S.Store conn.old conn.new requests.now outcomes.new) }
    ensures err { IfErr result (FailTogether S.Store conn.old conn.new requests.now) }
{
    let mut tx = conn.transaction();
    answer_each(alloc, &mut tx, caches, requests, outcomes)?;
    commit(tx)
}

// Answers them one after another. No reply to a command is kept.
fn answer_each<S: Alter>(
    alloc: Global,
    tx: &mut Transaction<'_, S>,
    caches: &mut Caches,
    requests: &[Request],
    outcomes: &mut [Result<Reply, Fault>],
) -> Result<(), Fault>
    requires in_form { InForm S.Store tx.old }
    requires begun { IsTrue (shown S.Store tx.old).in_transaction }
    requires written { HoldsAsWritten (shown S.Store tx.old) }
    requires right { HasAnswers (shown S.Store tx.old) caches.old }
    requires each { length outcomes.old ≡ length requests.now }
    requires commands { AllByRecursion (λ r. is_command r.what ≡ true) requests.now }
    ensures stays { Stays S.Store tx.old tx.new }
    ensures begun { HasCleanDisk (shown S.Store tx.new)
        → OnOk result (IsTrue (shown S.Store tx.new).in_transaction) }
    ensures right { OnOk result (HasAnswers (shown S.Store tx.new) caches.new) }
    ensures no_more { KeepNoMore caches.old caches.new }
    ensures many { length outcomes.new ≡ length requests.now }
    ensures answered { OnOk result (AreAnsweredInside S.Store requests.now outcomes.new
        tx.old.conn.now tx.new.conn.now) }
{
    for (place, request) in requests.iter().enumerate() {
        requests_are_in_form(request);
        let reply = identify_and_answer(alloc, tx, caches, request)?;
        outcomes[place] = Ok(reply);
    }
    Ok(())
}

// All meet this fault.
fn meet(outcomes: &mut [Result<Reply, Fault>], fault: Fault)
    ensures many { length outcomes.new ≡ length outcomes.old }
    ensures met { MeetFault fault outcomes.new }
{
    for outcome in outcomes.iter_mut() {
        *outcome = Err(fault);
    }
}
