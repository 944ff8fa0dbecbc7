//! A packument over a connection: a head with its length, and then the packument.

ghost use Rattle.std.specs.Prelude.{None};

use crate::outcome::same;
use crate::tests::asking::{does, request};
use crate::tests::lists::TWO_KITS;
use crate::tests::sent::{Narrow, TWO_VERSIONS, is_packument};
use registry_desk::Registry;
use registry_http::RegistryService;
use registry_names::{FromRead, Moment, ToWrite};
use registry_service::{Clock, End, PackumentService, Served, Service, serve};
use registry_wire::Inbox;
use sqlite::Alter;
use std::alloc::Global;
use std::process::Abort;

/// `bob` asks for the packument of `@lab/kit`.
const ASKS: &str = "GET /@lab%2fkit HTTP/1.1\r\nauthorization: Bearer npm_bob_000000001\r\n\r\n";

/// The response to a caller who isn't known.
const UNREAD: &str =
    "HTTP/1.1 404 Not Found\r\ncontent-type: application/json\r\ncontent-length: 20\r\n\r\n{\"error\":\"NotFound\"}";

/// A clock that stands still.
#[derive(Drop)]
struct Still;

impl Clock for Still {
    ghost readings = { λ _. None };

    fn now(&mut self) -> Moment {
        Moment::clamped(200)
    }
}

#[test]
fn a_packument_over_http_is_a_head_and_its_answer(rt: HostRuntime) {
    let registry = Registry::in_memory(rt.alloc()).expect(&rt, "a registry");
    is_served(&rt, rt.alloc(), registry);
}

// A packument is sent as it is made, and again after it was answered, when its text is kept.
fn is_served<S: Alter + Drop>(ends: &impl Abort, alloc: Global, registry: Registry<S>) {
    let mut registry = registry;
    does(ends, alloc, &mut registry, TWO_KITS);
    let mut service = RegistryService::new(registry);
    is_served_to_any_writer(ends, alloc, "made", &mut service);
    is_answered(ends, alloc, &mut service);
    is_served_to_any_writer(ends, alloc, "kept", &mut service);
    let asks = "GET /@lab%2fkit HTTP/1.1\r\n\r\n";
    is_served_so(ends, alloc, "unread", &mut service, asks, UNREAD);
}

// The packument is answered, and is kept from then on.
fn is_answered<D: Service>(ends: &impl Abort, alloc: Global, service: &mut D) {
    let query = request(ends, alloc, "--at 200 --as bob packument @lab/kit");
    is_packument(ends, &service.answer(alloc, &query));
}

// How a connection is served on which this is asked, and what a writer that fails after this many
// bytes takes of the response.
fn served_to<D: PackumentService>(
    alloc: Global,
    service: &mut D,
    asks: &str,
    room: usize,
) -> (Served, Vec<u8>) {
    let mut inbox = Inbox::new(alloc, FromRead::new(asks.as_bytes()));
    let mut narrow = Narrow {
        taken: Vec::new(alloc),
        room,
    };
    let mut writer = ToWrite::new(&mut narrow);
    let served = serve(alloc, service, &mut inbox, &mut writer, &mut Still);
    (served, narrow.taken)
}

// A writer that fails after some bytes has taken these bytes, and nothing else; a writer that
// doesn't fail has taken all bytes.
fn is_served_to_any_writer<D: PackumentService>(
    ends: &impl Abort,
    alloc: Global,
    shows: &str,
    service: &mut D,
) {
    let len = TWO_VERSIONS.len();
    let whole = format!(in alloc;
        "HTTP/1.1 200 OK\r\ncontent-type: application/json\r\ncontent-length: {len}\r\n\r\n{TWO_VERSIONS}"
    );
    let whole = whole.expect(ends, "memory");
    let cut = Served {
        requests: 0,
        end: End::WriteFault,
    };
    for room in 0..whole.len() {
        let (served, taken) = served_to(alloc, service, ASKS, room);
        same(ends, (shows, room), served, cut);
        let front = whole.as_bytes().get(..room).unwrap_or(&[]);
        same(ends, (shows, room), taken.as_slice() == front, true);
    }
    is_served_so(ends, alloc, shows, service, ASKS, whole.as_str());
}

// The answer is this, and the connection ends with it.
fn is_served_so<D: PackumentService>(
    ends: &impl Abort,
    alloc: Global,
    shows: &str,
    service: &mut D,
    asks: &str,
    wanted: &str,
) {
    let (served, taken) = served_to(alloc, service, asks, usize::MAX);
    let once = Served {
        requests: 1,
        end: End::Closed,
    };
    same(ends, shows, served, once);
    same(ends, shows, taken.as_slice() == wanted.as_bytes(), true);
}
