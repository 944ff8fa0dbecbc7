//! Lists of requests that have the same outcomes by `run` and by `apply` one by one.

use crate::outcome::same;
use crate::tests::asking::{push, requests};
use crate::tests::lists::{ACTIONS, LAB, LAB_KIT, PEOPLE, RIGHTS, VERSIONS, WITHDRAWALS};
use registry_desk::Registry;
use registry_names::Refusal;
use registry_rules::{Reply, Request};
use registry_tests_requests::{Outcome, outcomes_of};
use std::alloc::Global;
use std::process::Abort;

/// A query that gives a row where the tables have this program's schema number.
const NUMBER: &str = "SELECT name FROM meta WHERE name = 'schema' AND value = 3";

/// Two users, of whom one has a token.
const TWO_USERS: &str = "
--operator user-add ann
--operator user-add bob
--operator token-add bob npm_bob_000000001
";

/// The end of all tokens of the other, the first and the last of them, and the token that is left.
const ENDED: &str = "
--operator tokens-rm ann
token npm_ann_0_000000001 whoami
token npm_ann_999_000000001 whoami
token npm_bob_000000001 whoami
";

// Each caller asks for each action at one moment, after a package was published; and then all of
// this backwards.
#[test]
fn no_request_ends_in_a_fault(rt: HostRuntime) {
    let mut there = String::from_str(rt.alloc(), LAB_KIT).expect(&rt, "memory");
    let mut back = String::new(rt.alloc());
    for action in ACTIONS.lines() {
        push_there(&rt, rt.alloc(), &mut there, action);
        back = once_back(&rt, rt.alloc(), action, back.as_str());
    }
    let mut requests = requests(&rt, rt.alloc(), there.as_str());
    push(&rt, rt.alloc(), &mut requests, back.as_str());
    let _outcomes = both_ways(&rt, rt.alloc(), &requests);
}

// Adds the lines by which each caller asks for an action.
fn push_there(ends: &impl Abort, alloc: Global, text: &mut String, action: &str) {
    let lines = format!(in alloc;
        "--at 300 --operator {action}\n--at 300 --as ann {action}\n--at 300 --as bob {action}\n--at 300 --as eve {action}\n--at 300 {action}\n"
    );
    text.push_str(lines.expect(ends, "memory").as_str())
        .expect(ends, "memory");
}

// The same lines backwards, and then the text.
fn once_back(ends: &impl Abort, alloc: Global, action: &str, text: &str) -> String {
    let lines = format!(in alloc;
        "--at 300 {action}\n--at 300 --as eve {action}\n--at 300 --as bob {action}\n--at 300 --as ann {action}\n--at 300 --operator {action}\n{text}"
    );
    lines.expect(ends, "memory")
}

#[test]
fn every_reply_is_given_both_ways(rt: HostRuntime) {
    let mut requests = requests(&rt, rt.alloc(), LAB_KIT);
    let mut wanted = Vec::new(rt.alloc());
    for text in [PEOPLE, RIGHTS, VERSIONS, WITHDRAWALS] {
        push_told(&rt, rt.alloc(), &mut requests, &mut wanted, text);
    }
    let outcomes = both_ways(&rt, rt.alloc(), &requests);
    are_wanted(&rt, outcomes.get(7..).unwrap_or(&[]), &wanted);
}

#[test]
fn fifty_rounds_are_the_same_both_ways(rt: HostRuntime) {
    let mut requests = requests(&rt, rt.alloc(), LAB);
    for round in 0..50u64 {
        push_round(&rt, rt.alloc(), &mut requests, round);
    }
    let outcomes = both_ways(&rt, rt.alloc(), &requests);
    for (place, round) in outcomes.get(6..).unwrap_or(&[]).chunks(4).enumerate() {
        same(&rt, ("a round", place), is_round(round), true);
    }
}

// Two users: one has a token, and the other a thousand, which end. Then some are shown.
#[test]
fn a_thousand_tokens_of_a_user_end_at_once(rt: HostRuntime) {
    let mut requests = requests(&rt, rt.alloc(), TWO_USERS);
    for number in 0..1_000u64 {
        let line = format!(in rt.alloc(); "--operator token-add ann npm_ann_{number}_000000001");
        let line = line.expect(&rt, "memory");
        push(&rt, rt.alloc(), &mut requests, line.as_str());
    }
    push(&rt, rt.alloc(), &mut requests, ENDED);
    let (outcomes, rows) = ran(&rt, rt.alloc(), &requests, "SELECT digest FROM tokens");
    same(&rt, "how many are left", rows, 1);
    let have_ended = have_ended(outcomes.get(1_003..).unwrap_or(&[]));
    same(&rt, "they ended", have_ended, true);
}

fn have_ended(outcomes: &[Outcome]) -> bool {
    matches!(
        outcomes,
        [
            Ok(Reply::Count(1_000)),
            Ok(Reply::Refused(Refusal::NoCaller)),
            Ok(Reply::Refused(Refusal::NoCaller)),
            Ok(Reply::Doc(_)),
        ]
    )
}

// The outcomes of requests, which are the same all at once and one by one, and without faults.
fn both_ways(ends: &impl Abort, alloc: Global, requests: &[Request]) -> Vec<Outcome> {
    let (outcomes, rows) = ran(ends, alloc, requests, NUMBER);
    same(ends, "the schema's number", rows, 1);
    same(ends, "how many", outcomes.len(), requests.len());
    let mut registry = Registry::in_memory(alloc).expect(ends, "a registry");
    let others = outcomes_of(alloc, &mut registry, requests).expect(ends, "memory");
    for (place, (other, outcome)) in others.iter().zip(&outcomes).enumerate() {
        same(ends, place, other, outcome);
        same(ends, place, outcome.is_err(), false);
    }
    same(ends, "how many one by one", others.len(), requests.len());
    outcomes
}

/// The outcomes of requests that are run on a new registry, and how many rows a query gives then.
pub(crate) fn ran(
    ends: &impl Abort,
    alloc: Global,
    requests: &[Request],
    query: &str,
) -> (Vec<Outcome>, usize) {
    let (registry, outcomes) = Registry::run_in_memory(alloc, requests).expect(ends, "memory");
    let mut conn = registry.release();
    let rows = conn.query_all(query, &[]).expect(ends, query);
    (outcomes, rows.len())
}

/// Adds the requests of a text, and the outcome of each, which is the line after it.
pub(crate) fn push_told(
    ends: &impl Abort,
    alloc: Global,
    requests: &mut Vec<Request>,
    wanted: &mut Vec<&'static str>,
    text: &'static str,
) {
    for line in text.lines() {
        match line.strip_prefix("= ") {
            Some(told) => wanted.push(told).expect(ends, "memory"),
            None => push(ends, alloc, requests, line),
        }
    }
}

/// Checks that the outcomes are as wanted.
pub(crate) fn are_wanted(ends: &impl Abort, outcomes: &[Outcome], wanted: &[&str]) {
    same(ends, "how many", outcomes.len(), wanted.len());
    for (outcome, wanted) in outcomes.iter().zip(wanted) {
        if !is_wanted(outcome, *wanted) {
            panic!(ends; "{outcome:?} comes out, and not {wanted:?}");
        }
    }
}

// Whether an outcome is the one that a line tells.
fn is_wanted(outcome: &Outcome, wanted: &str) -> bool {
    match outcome {
        Ok(Reply::Created) => wanted == "created",
        Ok(Reply::Done) => wanted == "done",
        Ok(Reply::Count(count)) => *count == 1 && wanted == "count 1",
        Ok(Reply::Doc(text)) => text.as_str() == wanted,
        Ok(Reply::Bytes(bytes)) => bytes.as_slice() == wanted.as_bytes(),
        Ok(Reply::Refused(refusal)) => wanted.strip_prefix("refused ") == Some(refusal.text()),
        Err(_) => false,
    }
}

// Adds a round over seven packages in turn, each with its next version: it is published twice; then
// its package is asked for, and one that is unknown.
fn push_round(ends: &impl Abort, alloc: Global, requests: &mut Vec<Request>, round: u64) {
    let (kit, version) = (round % 7, round / 7);
    let lines = format!(in alloc;
        "--at {round} --as bob publish kit-{kit} 1.{version}.0\n--at {round} --as bob publish kit-{kit} 1.{version}.0\n--at {round} --as bob packument kit-{kit}\n--at {round} --as bob packument kid-{kit}"
    );
    let lines = lines.expect(ends, "memory");
    push(ends, alloc, requests, lines.as_str());
}

fn is_round(outcomes: &[Outcome]) -> bool {
    matches!(
        outcomes,
        [
            Ok(Reply::Created),
            Ok(Reply::Refused(Refusal::Published)),
            Ok(Reply::Doc(_)),
            Ok(Reply::Refused(Refusal::NotFound)),
        ]
    )
}
