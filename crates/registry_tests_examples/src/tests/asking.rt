//! Requests as lines of text, without which a test ends.

use crate::outcome::same;
use registry_desk::Registry;
use registry_rules::{Reply, Request};
use registry_tests_requests::{Outcome, outcomes_of, push_requests, request_of};
use sqlite::Alter;
use std::alloc::Global;
use std::process::Abort;

/// The request that a line asks for.
pub(crate) fn request(ends: &impl Abort, alloc: Global, line: &str) -> Request {
    match request_of(alloc, line) {
        Ok(request) => request,
        Err(_) => panic!(ends; "{line:?} asks for nothing"),
    }
}

/// The requests that the lines of a text ask for.
pub(crate) fn requests(ends: &impl Abort, alloc: Global, text: &str) -> Vec<Request> {
    let mut requests = Vec::new(alloc);
    push(ends, alloc, &mut requests, text);
    requests
}

/// Adds the requests that the lines of a text ask for.
pub(crate) fn push(ends: &impl Abort, alloc: Global, requests: &mut Vec<Request>, text: &str) {
    match push_requests(alloc, requests, text) {
        Ok(()) => {}
        Err(_) => panic!(ends; "{text:?} asks for nothing"),
    }
}

/// Whether each request was done.
pub(crate) fn are_done(outcomes: &[Outcome]) -> bool {
    outcomes.iter().all(|outcome| matches!(outcome, Ok(Reply::Done | Reply::Created)))
}

/// Asks a registry the requests of a text, and checks that each is done.
pub(crate) fn does<S: Alter>(
    ends: &impl Abort,
    alloc: Global,
    registry: &mut Registry<S>,
    text: &str,
) {
    let requests = requests(ends, alloc, text);
    let outcomes = outcomes_of(alloc, registry, &requests).expect(ends, "memory");
    same(ends, text, are_done(&outcomes), true);
}
