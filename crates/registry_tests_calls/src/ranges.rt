//! The tables of `docs/RANGES.md`, texts that are ranges, and texts that aren't.

use crate::outcome::same;
use crate::parts::{repeated, version};
use registry_names::Ver;
use registry_ranges::{Range, binds, binds_any, is_range};
use std::alloc::Global;
use std::process::Abort;
use std::slice;

/// Whether a range allows a version. `None` where the text isn't a range.
type Allowed = Option<bool>;

// Each line has a range, and ` => ` and versions: those that it allows, and behind `!` those that it
// doesn't.

// Each row of the table of what is written, in its order.
const TABLE: &str = " => 1.0.0 !1.0.0-a
* => 0.0.0 !0.0.0-a
=* => 1.0.0 !1.0.0-a
>=x => 1.0.0 !1.0.0-a
<=X => 1.0.0 !1.0.0-a
~* => 1.0.0 !1.0.0-a
^*.2.3 => 1.0.0 !1.0.0-a
1 => 1.9.9 !2.0.0-a
=1 => 1.0.0 !0.9.9
1.2 => 1.2.9 !1.3.0-a
=1.2 => 1.2.0 !1.1.9
1.2.3 => 1.2.3 !1.2.4
=1.2.3 => 1.2.3 !1.2.2
1.2.3-a => 1.2.3-a !1.2.3
=1.2.3-a => 1.2.3-a !1.2.3-b
~1 => 1.9.0 !2.0.0-a
~1.2 => 1.2.9 !1.3.0
~1.2.3 => 1.2.9 !1.2.2
~1.2.3-b => 1.2.3-c !1.2.3-a
^1.2.3 => 1.9.0 !2.0.0-0
^1.2 => 1.2.0 !1.1.9
^1 => 1.9.0 !2.0.0
^0 => 0.9.0 !1.0.0
^1.2.3-b => 1.2.3-c !1.2.3-a
^0.2.3 => 0.2.9 !0.3.0
^0.2 => 0.2.0 !0.1.9
^0.0 => 0.0.9 !0.1.0
^0.0.3 => 0.0.3 !0.0.4
>1 => 2.0.0 !1.9.9
>1.2 => 1.3.0 !1.2.9
<=1 => 1.9.9 !2.0.0
<=1.2 => 1.2.9 !1.3.0
<1 => 0.9.9 !1.0.0
<1.2 => 1.1.9 !1.2.0
>=1 => 1.0.0 !0.9.9
>=1.2 => 1.2.0 !1.1.9
<1.2.3 => 1.2.2 !1.2.3
<=1.2.3 => 1.2.3 !1.2.4
>1.2.3 => 1.2.4 !1.2.3
>=1.2.3 => 1.2.3 !1.2.2
<1.2.3-b => 1.2.3-a !1.2.3-b
>1.2.3-a => 1.2.3-b !1.2.3-a
1.2.3 - 2.3.4 => 2.3.4 !2.3.5
1.2 - 2.3 => 2.3.9 !2.4.0
1 - 2 => 2.9.9 !3.0.0
1.2.3 - * => 9.0.0 !1.2.2
0.0.0-a - * => 0.0.0-a !0.0.0-0
0.0.0-a - x => 0.0.0-b !0.0.1-b
0.0.0-a - X.1 => 0.0.0-b !1.0.0-b
* - 1.2.3 => 0.0.0 !1.2.4
x.1 - 2 => 2.9.0 !3.0.0
* - 0.0.1-b => 0.0.1-a !0.0.1-c
* - * => 1.0.0 !1.0.0-a";

const SETS: &str = "^1.2.3 => 1.2.3 !1.2.2 !1.3.0-beta
1.2.3 - 2.3 => 1.2.3 !1.2.3-a
>=1.2.3-beta.1 <1.3.0 => 1.2.3-beta.2 1.2.4 !1.2.4-beta
1 || 3 => 1.5.0 3.1.0 !2.0.0
  || 9 => 4.0.0 !9.0.0-a
|| => 1.0.0
* || 1.0.0-a => 1.0.0-a
1.x.3-beta => 1.0.0
=v1 => 1.0.0
>= 1 => 2.0.0
~> 1 => 1.9.0 !2.0.0
v1 - v2  => 2.9.0
1.2.3+build => 1.2.3
<=9007199254740991 => 9007199254740991.0.0
9007199254740991 => 9007199254740991.0.0
1.2.3-9007199254740992 => 1.2.3-9007199254740992
^0.0.3-b => !0.0.4-a
1 2 => !1.0.0
<* => !0.0.0 !0.0.0-0
>* => !9.0.0
>x.1 => !9007199254740991.0.0
<x.1 || 1 => !0.0.0
<1 => !1.0.0-0
<=1 => !2.0.0-0
1.2.3 - 2 => !3.0.0-0
* >=0.0.0-0 => !0.0.0-a
* - 0.0.0-a => !0.0.0-a
0.0.0-a <=* => !0.0.0-a
1.2.3-9007199254740993 => !1.2.3-9007199254740992
>1.2.3-beta.2 => 1.2.3-beta.11.0";

const NO_RANGES: &str = "v
vv1
latest
1.2.3.4
1.2-beta
01.2.3
1.2.3-
1.2.3-01
1.2.3+
9007199254740992
x.9007199254740992
x-y
==1
> =1
~ > 1
1*.3.2
2.0.*1
1.2.3 -2.3
1.2.3- 2
1.2.3 - 2.3 4
1.2.3 - 
- 1
1|2
1|| |2
v || 1
1\t||2";

fn is_told(rt: &impl Abort, alloc: Global, line: &str) {
    let (range, versions) = line.split_once(" => ").expect(rt, line);
    for told in versions.split(' ') {
        match told.strip_prefix('!') {
            Some(version) => both_say(rt, alloc, range, version, Some(false)),
            None => both_say(rt, alloc, range, told, Some(true)),
        }
    }
}

// Sees that the calls say of a range what is wanted. A text binds a version where it is no range, or
// allows it.
fn both_say(rt: &impl Abort, alloc: Global, range: &str, text: &str, wanted: Allowed) {
    let shows = (range.get(..40).unwrap_or(range), text);
    let version = version(rt, alloc, text);
    let allowed = match Range::parse(alloc, range).expect(rt, "memory") {
        Some(range) => Some(range.allows(&version)),
        None => None,
    };
    let bound = binds(alloc, range, &version).expect(rt, "memory");
    same(rt, shows, is_range(range), wanted.is_some());
    same(rt, shows, allowed, wanted);
    same(rt, shows, bound, wanted.unwrap_or(true));
    let any = binds_any(alloc, range, slice::from_ref(&version)).expect(rt, "memory");
    same(rt, shows, any, bound);
}

#[test]
fn texts_are_ranges(rt: HostRuntime) {
    for line in TABLE.lines().chain(SETS.lines()) {
        is_told(&rt, rt.alloc(), line);
    }
}

#[test]
fn texts_are_no_ranges(rt: HostRuntime) {
    for text in NO_RANGES.lines() {
        both_say(&rt, rt.alloc(), text, "1.0.0", None);
    }
    both_say(&rt, rt.alloc(), "1\n", "1.0.0", None);
}

// Each line has a text, and ` => `, whether it binds one of the versions, and the versions.
const MANY: &str = "^1 => false
latest => false
^1 => true 0.9.0 1.2.0 2.0.0
^1 => true 2.0.0 1.2.0 0.9.0
^1 => false 0.9.0 2.0.0
^1 => true 0.9.0 0.9.1 0.9.2 1.0.0
=1.2.3 => true 1.2.2 1.2.3 1.2.4
=1.2.3 => false 1.2.2 1.2.4
>1.2.3 <=1.2.5 => true 1.2.3 1.2.5
>1.2.3 <=1.2.5 => false 1.2.3 1.2.6
>=1.2.3 <1.2.5 => true 1.2.2 1.2.3 1.2.5
>=1.2.3 <1.2.5 => false 1.2.2 1.2.5
latest => true 1.0.0
1 || latest => true 2.0.0 3.0.0
1 || 3 => true 2.0.0 3.1.0
1 || 3 => false 2.0.0 4.0.0
1 2 => false 1.0.0 2.0.0
* => false 1.0.0-a 2.0.0-a
* => true 1.0.0-a 2.0.0
>=1.2.3-beta.1 <1.3.0 => true 1.0.0 1.2.3-beta.2 2.0.0
>=1.2.3-beta.1 <1.3.0 => false 1.2.3-alpha 1.2.4-beta 1.3.0
>1.2.3-b <1.2.3-d => true 1.2.3-b 1.2.3-c 1.2.3-d
>1.2.3-b <1.2.3-d => false 1.2.2 1.2.3-b 1.2.3-d 1.2.3
1.0.0 || 2.0.0-a => true 2.0.0-a 3.0.0
1.0.0 || 2.0.0-a => false 1.0.0-a 2.0.0-b
>=1.0.0-b <2.0.0-b => true 1.0.0-c
>=1.0.0-b <2.0.0-b => true 2.0.0-a
>=1.0.0-b <2.0.0-b => false 1.0.0-a 1.5.0-a 2.0.0-b 2.0.0
1.0.0-b || >=0.9.0 <2.0.0 => false 1.0.0-c
1.0.0-b || >=0.9.0 <2.0.0 => true 1.0.0-c 1.0.0";

#[test]
fn texts_bind_one_of_many(rt: HostRuntime) {
    for line in MANY.lines() {
        any_is_told(&rt, rt.alloc(), line);
    }
}

fn any_is_told(rt: &impl Abort, alloc: Global, line: &str) {
    let (range, told) = line.split_once(" => ").expect(rt, line);
    let mut words = told.split(' ');
    let wanted = words.next() == Some("true");
    let mut versions: Vec<Ver> = Vec::new(alloc);
    for word in words {
        versions.push(version(rt, alloc, word)).expect(rt, "memory");
    }
    versions.sort_unstable();
    let bound = binds_any(alloc, range, &versions).expect(rt, "memory");
    same(rt, line, bound, wanted);
}

/// A part, how often a range repeats it, and whether 1.0.0 is allowed.
type LongCase = (&'static str, usize, Allowed);

const LONG_RANGES: [LongCase; 5] = [
    ("1||", 100_000, Some(true)),
    (" ", 1_000_000, Some(true)),
    ("1", 1_000_000, None),
    ("1.", 500_000, None),
    ("a ", 2_000_000, None),
];

#[test]
fn long_ranges(rt: HostRuntime) {
    for (part, count, wanted) in LONG_RANGES {
        let range = repeated(&rt, rt.alloc(), part, count);
        both_say(&rt, rt.alloc(), &range, "1.0.0", wanted);
    }
}
