//! A store of texts, step by step, and what is shared.

use crate::outcome::same;
use crate::parts::{concat, repeated, shared, shared_blob, string, text};
use registry_cache::{BlobCache, ENTRY_COST, Shared, SharedText, TextCache};
use std::alloc::Global;
use std::process::Abort;

// What is asked of a store that keeps nothing yet, step by step: what the steps show, the limit, and the
// steps. `put`, `get` and `peek` have a name and how many bytes the text has, or `nothing` where none is
// found; `forget` has a name, and `large` how many bytes the text has that alone takes more than the
// limit. Behind ` => ` stands what the kept texts take, without that one: how many empty texts would take
// as much, and the bytes beyond. A text begins with its name, followed by 2, 3, 4 and so on, up to the
// last digit of its length.

/// What an empty text takes: each has a name of one byte.
const ONE: usize = ENTRY_COST + 1;

/// What two of them take.
const TWO: usize = 2 * ONE;

// Texts about as long as the limit.
const LIMITS: &str = "a text of just the limit is kept, and no other beside it
limit => 1 and 10
put a 4 => 1 and 4
put b 10 => 1 and 10
peek b 10 => 1 and 10
peek a nothing => 1 and 10

a text of a byte more is kept apart, and no other goes
limit => 1 and 10
put a 4 => 1 and 4
put b 11 => 1 and 4
get b 11 => 1 and 4
peek a 4 => 1 and 4
large 11 => 1 and 4

a text that is too long takes the old one of its name with it
limit => 2 and 10
put a 4 => 1 and 4
put b 5 => 2 and 9
put a 268 => 1 and 5
get a 268 => 1 and 5
large 268 => 1 and 5

under a limit of 0 each text is kept apart, an empty one, too
limit => 0 and 0
put a 0 => 0 and 0
get a 0 => 0 and 0
large 0 => 0 and 0
put b 1 => 0 and 0
get b 1 => 0 and 0
get a nothing => 0 and 0
large 1 => 0 and 0";

// What is kept beside a new text.
const ROOM: &str = "an empty text that was asked last stays beside one of just the limit
limit => 2 and 10
put b 5 => 1 and 5
put a 0 => 2 and 5
put c 10 => 2 and 10
peek a 0 => 2 and 10

one that was asked before a text that has no room goes with it
limit => 2 and 10
put a 0 => 1 and 0
put b 5 => 2 and 5
put c 10 => 1 and 10
peek a nothing => 1 and 10

a small text goes with a larger one that was asked later and has no room
limit => 2 and 10
put b 1 => 1 and 1
put a 8 => 2 and 9
put c 3 => 1 and 3
peek b nothing => 1 and 3

where a name is put again, the bytes of its old text are room
limit => 2 and 10
put a 4 => 1 and 4
put b 5 => 2 and 9
put a 5 => 2 and 10
peek a 5 => 2 and 10

what is forgotten leaves its room, and to forget it again changes nothing
limit => 2 and 10
put a 4 => 1 and 4
put b 5 => 2 and 9
forget b => 1 and 4
forget b => 1 and 4
get b nothing => 1 and 4
put c 6 => 2 and 10
peek a 4 => 2 and 10";

// What goes first.
const ORDER: &str = "the text that was put first goes first
limit => 2 and 10
put a 4 => 1 and 4
put b 5 => 2 and 9
put c 2 => 2 and 7
peek a nothing => 2 and 7

but not where it was asked for since
limit => 2 and 10
put a 4 => 1 and 4
put b 5 => 2 and 9
get a 4 => 2 and 9
put c 2 => 2 and 6
peek b nothing => 2 and 6

a look at a text leaves the order
limit => 2 and 10
put a 4 => 1 and 4
put b 5 => 2 and 9
peek a 4 => 2 and 9
put c 2 => 2 and 7
peek a nothing => 2 and 7

and so does who asks for a name that isn't there
limit => 2 and 10
put a 4 => 1 and 4
put b 5 => 2 and 9
get c nothing => 2 and 9
put c 2 => 2 and 7
peek a nothing => 2 and 7

who puts a name again asks for it
limit => 2 and 10
put a 4 => 1 and 4
put b 5 => 2 and 9
put a 5 => 2 and 10
put c 1 => 2 and 6
peek b nothing => 2 and 6";

// A text that alone takes more than the limit.
const LARGE: &str = "it takes the place of the one before
limit => 1 and 4
put a 5 => 0 and 0
large 5 => 0 and 0
put b 6 => 0 and 0
large 6 => 0 and 0
get a nothing => 0 and 0
get b 6 => 0 and 0

others come and go beside it
limit => 1 and 4
put a 5 => 0 and 0
put b 3 => 1 and 3
put c 2 => 1 and 2
peek b nothing => 1 and 2
peek a 5 => 1 and 2
large 5 => 1 and 2

who asks for it leaves the order of the others
limit => 2 and 10
put a 4 => 1 and 4
put b 5 => 2 and 9
put c 268 => 2 and 9
get c 268 => 2 and 9
put d 2 => 2 and 7
peek a nothing => 2 and 7
peek c 268 => 2 and 7

it is forgotten with its name, and with no other
limit => 1 and 4
put a 5 => 0 and 0
put b 3 => 1 and 3
forget b => 0 and 0
peek a 5 => 0 and 0
forget a => 0 and 0
peek a nothing => 0 and 0
large 0 => 0 and 0

a short text under its name takes its place
limit => 1 and 4
put a 5 => 0 and 0
put a 3 => 1 and 3
get a 3 => 1 and 3
large 0 => 1 and 3

another large one under its name takes its place
limit => 1 and 4
put a 5 => 0 and 0
put a 6 => 0 and 0
get a 6 => 0 and 0
large 6 => 0 and 0";

// Checks that a store keeps what it should keep, and what is taken after each step.
fn keeps(rt: &impl Abort, alloc: Global, case: &str) {
    let (shows, rest) = case.split_once('\n').expect(rt, case);
    let (limit, steps) = rest.split_once('\n').expect(rt, case);
    let limit = size_of(rt, limit.strip_prefix("limit => ").expect(rt, limit));
    let mut store = TextCache::new(alloc, limit).expect(rt, "memory");
    for line in steps.lines() {
        let (step, size) = line.split_once(" => ").expect(rt, line);
        let (asked, rest) = step.split_once(' ').expect(rt, line);
        let (name, told) = rest.split_once(' ').unwrap_or((rest, rest));
        take(rt, alloc, &mut store, (shows, line), asked, name, told);
        let taken = store.bytes_without_large();
        same(rt, (shows, line), taken, size_of(rt, size));
    }
    same(rt, shows, store.limit(), limit);
}

// Takes a step, and checks that a look-up finds what it should find.
fn take(
    rt: &impl Abort,
    alloc: Global,
    store: &mut TextCache,
    shows: (&str, &str),
    asked: &str,
    name: &str,
    told: &str,
) {
    match asked {
        "put" => {
            let text = shared(rt, alloc, told_text(rt, alloc, name, told).as_str());
            store.put(name, text).expect(rt, "memory");
        }
        "get" => {
            let found = store.get(name).expect(rt, "few owners");
            is_found(rt, alloc, shows, found.as_ref(), name, told);
        }
        "peek" => is_found(rt, alloc, shows, store.peek(name), name, told),
        "forget" => store.forget(name),
        "large" => same(rt, shows, store.large_size(), number(rt, told)),
        _ => panic!(rt; "{asked} is no step"),
    }
}

fn is_found(
    rt: &impl Abort,
    alloc: Global,
    shows: (&str, &str),
    found: Option<&SharedText>,
    name: &str,
    told: &str,
) {
    match found {
        Some(text) => same(
            rt,
            shows,
            text.as_str(),
            told_text(rt, alloc, name, told).as_str(),
        ),
        None => same(rt, shows, "nothing", told),
    }
}

// The text of this name that has as many bytes as are told.
fn told_text(rt: &impl Abort, alloc: Global, name: &str, told: &str) -> String {
    let digits = repeated(rt, alloc, "2345678901", 30);
    let text = concat(rt, alloc, &[name, digits.as_str()]);
    string(
        rt,
        alloc,
        text.get(..number(rt, told)).expect(rt, "a shorter text"),
    )
}

// What as many empty texts take as are told, and some bytes beyond.
fn size_of(rt: &impl Abort, told: &str) -> usize {
    let (texts, bytes) = told.split_once(" and ").expect(rt, told);
    number(rt, texts)
        .saturating_mul(ONE)
        .saturating_add(number(rt, bytes))
}

fn number(rt: &impl Abort, told: &str) -> usize {
    told.parse::<usize>().expect(rt, told)
}

#[test]
fn texts_are_kept_within_the_limit(rt: HostRuntime) {
    for cases in [LIMITS, ROOM, ORDER, LARGE] {
        for case in cases.split("\n\n") {
            keeps(&rt, rt.alloc(), case);
        }
    }
}

#[test]
fn what_is_shared_outlives_the_others(rt: HostRuntime) {
    let text = SharedText::from_text(text(&rt, rt.alloc(), "four")).expect(&rt, "memory");
    let copy = text.share().expect(&rt, "few owners");
    same(&rt, "equal", text == copy, true);
    drop(text);
    same(&rt, "copy", copy.as_str(), "four");
    let blob = shared_blob(&rt, rt.alloc(), b"\x00\xff");
    let copy = blob.share().expect(&rt, "few owners");
    same(&rt, "equal", blob == copy, true);
    drop(blob);
    same(&rt, "copy", copy.as_slice(), b"\x00\xff".as_slice());
}

// Of three blobs the second is forgotten.
#[test]
fn blobs_are_kept_as_texts_are(rt: HostRuntime) {
    let mut store = BlobCache::new(rt.alloc(), 2 * TWO).expect(&rt, "memory");
    for name in ["a", "b", "c"] {
        let blob = shared_blob(&rt, rt.alloc(), name.as_bytes());
        store.put(name, blob).expect(&rt, "memory");
    }
    store.forget("b");
    same(&rt, "size", store.bytes_without_large(), TWO + 2);
    same(&rt, "forgotten", store.peek("b").is_none(), true);
    let found = store.get("c").expect(&rt, "few owners");
    let found = found.expect(&rt, "a blob");
    same(&rt, "kept", found.as_slice(), b"c".as_slice());
}
