//! Packuments in one walk: the text within a limit, and otherwise how many bytes it has.

use crate::outcome::same;
use crate::packument::stream::{
    KIT, KIT_TAGS, KIT_VERSIONS, KIT_WITHOUT_VERSIONS, source_that_fails,
};
use crate::packument::{VersionCase, head};
use registry_names::Fault;
use registry_packument::{PackumentWithin, packument_within};
use std::alloc::Global;
use std::process::Abort;

/// More calls than a source of three versions is asked.
const ALL: u32 = 9;

// Checks what is returned for the packument of these versions, from a source that answers this many calls:
// its text within the limit, its length above it, or a fault.
fn gives(
    rt: &impl Abort,
    alloc: Global,
    versions: &[VersionCase],
    answers: u32,
    limit: u64,
    wanted: Result<&str, Fault>,
) {
    let head = head(rt, alloc, "kit", KIT_TAGS, versions);
    let mut source = source_that_fails(rt, alloc, versions, answers);
    let given = packument_within(alloc, &head, &mut source, limit);
    let len = match wanted {
        Ok(text) => text.len() as u64,
        Err(_) => 0,
    };
    match &given {
        Ok(PackumentWithin::Text(text)) => {
            same(rt, (answers, limit), limit >= len, true);
            same(rt, (answers, limit), Ok(text.as_str()), wanted);
        }
        Ok(PackumentWithin::Longer(longer)) => {
            same(rt, (answers, limit), limit < len, true);
            same(rt, (answers, limit), *longer, len);
        }
        Err(fault) => same(rt, (answers, limit), Err(*fault), wanted),
    }
}

#[test]
fn a_packument_above_a_limit_is_a_length(rt: HostRuntime) {
    let alloc = rt.alloc();
    for limit in 0..(KIT.len() as u64).saturating_add(2) {
        gives(&rt, alloc, KIT_VERSIONS, ALL, limit, Ok(KIT));
        gives(&rt, alloc, &[], ALL, limit, Ok(KIT_WITHOUT_VERSIONS));
    }
    gives(&rt, alloc, KIT_VERSIONS, ALL, u64::MAX, Ok(KIT));
    gives(&rt, alloc, &[], ALL, u64::MAX, Ok(KIT_WITHOUT_VERSIONS));
}

const NO_FIRST: &[VersionCase] = &[("1.0.0", "[1]", ""), ("1.1.0", r#"{"a":1}"#, "")];

const NO_LAST: &[VersionCase] = &[
    ("1.0.0", r#"{"a":1}"#, ""),
    ("1.1.0", r#"{"a":1,"z":2}"#, "old"),
    ("2.0.0-b", "[1]", ""),
];

// The limits are passed before the first version, by the second of three, and never. The source fails, or
// a version has no manifest.
#[test]
fn a_source_that_fails_gives_no_packument(rt: HostRuntime) {
    let (alloc, fault) = (rt.alloc(), Err(Fault::Database));
    for limit in [0, 300, u64::MAX] {
        for answers in 0..4 {
            gives(&rt, alloc, KIT_VERSIONS, answers, limit, fault);
        }
        gives(&rt, alloc, NO_FIRST, ALL, limit, fault);
        gives(&rt, alloc, NO_LAST, ALL, limit, fault);
    }
}
