//! Moments as texts, and the first and the last of them.

use crate::outcome::same;
use crate::packument::{VersionCase, times};
use registry_names::Moment;
use registry_packument::{PackTimes, moment_text};
use std::alloc::Global;
use std::process::Abort;

// Moments, and their texts as GNU `date` and Python's `datetime` print them.
const MOMENTS: &str = "0 1970-01-01T00:00:00.000Z
86399 1970-01-01T23:59:59.000Z
86400 1970-01-02T00:00:00.000Z
2678399 1970-01-31T23:59:59.000Z
2678400 1970-02-01T00:00:00.000Z
5097600 1970-03-01T00:00:00.000Z
31535999 1970-12-31T23:59:59.000Z
31536000 1971-01-01T00:00:00.000Z
68169600 1972-02-29T00:00:00.000Z
68256000 1972-03-01T00:00:00.000Z
951782399 2000-02-28T23:59:59.000Z
951782400 2000-02-29T00:00:00.000Z
951868800 2000-03-01T00:00:00.000Z
1790000000 2026-09-21T14:13:20.000Z
4107456000 2100-02-28T00:00:00.000Z
4107542399 2100-02-28T23:59:59.000Z
4107542400 2100-03-01T00:00:00.000Z
253402300799 9999-12-31T23:59:59.000Z";

#[test]
fn moments_are_dates_and_times(rt: HostRuntime) {
    for line in MOMENTS.lines() {
        let (seconds, wanted) = line.split_once(' ').expect(&rt, line);
        let seconds = seconds.parse::<i64>().expect(&rt, line);
        let moment = Moment::new(seconds).expect(&rt, line);
        let text = moment_text(rt.alloc(), moment).expect(&rt, "memory");
        same(&rt, line, text.as_str(), wanted);
    }
}

const LIVE: &[VersionCase] = &[("1.0.0", "{}", "")];

// Checks when a package was created and modified, if there is a version, by when the versions that were
// withdrawn had been published, the last of these withdrawals, and the live versions. A live version was
// published at 100.
fn spans(
    rt: &impl Abort,
    alloc: Global,
    withdrawn: &[i64],
    last: Option<i64>,
    live: &[VersionCase],
    wanted: Option<(i64, i64)>,
) {
    let mut moments = Vec::new(alloc);
    for seconds in withdrawn {
        moments.push(Moment::clamped(*seconds)).expect(rt, "memory");
    }
    let last = last.map(Moment::clamped);
    let came_out = match PackTimes::new(times(rt, alloc, live), &moments, last) {
        Some(times) => Some((times.created.seconds(), times.modified.seconds())),
        None => None,
    };
    same(rt, withdrawn, came_out, wanted);
}

#[test]
fn packages_have_a_first_and_a_last_moment(rt: HostRuntime) {
    let alloc = rt.alloc();
    spans(&rt, alloc, &[], None, &[], None);
    spans(&rt, alloc, &[], None, LIVE, Some((100, 100)));
    spans(&rt, alloc, &[70], Some(80), &[], Some((70, 80)));
    spans(&rt, alloc, &[70], Some(80), LIVE, Some((70, 100)));
    spans(&rt, alloc, &[150, 120], Some(200), LIVE, Some((100, 200)));
    spans(&rt, alloc, &[150], Some(90), LIVE, Some((100, 150)));
}
