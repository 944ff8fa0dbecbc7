//! What names, moments, refusals and faults answer to calls that no command line makes.

use crate::outcome::{is_displayed, same};
use crate::parts::{blob, name, text};
use registry_names::{Blob, Fault, Moment, Refusal, Rule, Stop, TagText, Text};
use std::alloc::Global;
use std::process::Abort;

// The program refuses the empty text as a range before it asks whether it is a tag.
#[test]
fn the_empty_text_is_no_tag(rt: HostRuntime) {
    match TagText::shape(rt.alloc(), "") {
        Ok(tag) => panic!(rt; "{:?} is a tag", tag.text()),
        Err(stop) => same(&rt, "", &stop, &Stop::Refused(Refusal::BadTag)),
    }
}

fn has_parts(rt: &impl Abort, alloc: Global, text: &str, scope: Option<&str>, part: &str) {
    let name = name(rt, alloc, text);
    same(rt, text, name.scope(), scope);
    same(rt, text, name.part(), part);
}

#[test]
fn parts_of_names(rt: HostRuntime) {
    has_parts(&rt, rt.alloc(), "@lab/kit", Some("lab"), "kit");
    has_parts(&rt, rt.alloc(), "kit", None, "kit");
    let name = "@lab/node_modules";
    has_parts(&rt, rt.alloc(), name, Some("lab"), "node_modules");
}

// Seconds, and the nearest moment: before the first, the first, a leap day, the last, and after it.
const MOMENTS: [(i64, i64); 5] = [
    (-1, 0),
    (0, 0),
    (951_782_400, 951_782_400),
    (253_402_300_799, 253_402_300_799),
    (253_402_300_800, 253_402_300_799),
];

#[test]
fn moments(rt: HostRuntime) {
    for (seconds, nearest) in MOMENTS {
        same(&rt, seconds, Moment::clamped(seconds).seconds(), nearest);
        let is_moment = match Moment::new(seconds) {
            Some(moment) => moment.seconds() == seconds,
            None => false,
        };
        same(&rt, seconds, is_moment, seconds == nearest);
    }
}

// Refusals and faults, how each is printed, and the status of its answer. Stories print each of the other
// refusals, and those of HTTP answer them with their status.
const PRINTED: [(Stop, &str, u16); 7] = [
    (Stop::Refused(Refusal::BadName), "BadName", 400),
    (Stop::Refused(Refusal::Denied(Rule::A1)), "Denied A1", 403),
    (Stop::Refused(Refusal::Denied(Rule::A10)), "Denied A10", 403),
    (Stop::Refused(Refusal::Stale), "Stale", 409),
    (Stop::Refused(Refusal::NotServed), "NotServed", 405),
    (Stop::Fault(Fault::Memory), "Memory", 503),
    (Stop::Fault(Fault::Database), "Database", 500),
];

fn is_printed(rt: &impl Abort, alloc: Global, stop: Stop, text: &str, status: u16) {
    match stop {
        Stop::Refused(refusal) => {
            same(rt, text, (refusal.text(), refusal.status()), (text, status));
            is_displayed(rt, alloc, &refusal, text);
        }
        Stop::Fault(fault) => {
            same(rt, text, (fault.text(), fault.status()), (text, status));
            is_displayed(rt, alloc, &fault, text);
        }
    }
    is_displayed(rt, alloc, &stop, text);
    same(rt, text, stop.text(), text);
}

#[test]
fn refusals_and_faults_are_printed(rt: HostRuntime) {
    for (stop, text, status) in PRINTED {
        is_printed(&rt, rt.alloc(), stop, text, status);
    }
}

fn are_one(rt: &impl Abort, alloc: Global, shows: &str, other: &str, wanted: bool) {
    let held = text(rt, alloc, shows);
    let again = Text::from(text(rt, alloc, other).into_string());
    same(rt, shows, held.as_str(), shows);
    same(rt, shows, held == again, wanted);
    let held = blob(rt, alloc, shows.as_bytes());
    let again = Blob::from(blob(rt, alloc, other.as_bytes()).into_vec());
    same(rt, shows, held.as_slice(), shows.as_bytes());
    same(rt, shows, held == again, wanted);
}

#[test]
fn texts_and_blobs(rt: HostRuntime) {
    are_one(&rt, rt.alloc(), "kit", "kit", true);
    are_one(&rt, rt.alloc(), "kit", "kid", false);
    are_one(&rt, rt.alloc(), "abc", "ab", false);
}
