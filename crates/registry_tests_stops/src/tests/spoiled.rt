//! A disk that gives back another byte than it was given: the file is refused, and the page is
//! never read as data.

use crate::asking::{Asks, First, answered, requests};
use crate::disks::{Came, Kept, NEVER, Visit, asked_and_closed, visited};
use crate::outcome::same;
use crate::requests::{ADD_ANN, COMMANDS, TAGS_OF_NONE};
use registry_desk::Registry;
use registry_names::{Fault, Refusal};
use registry_rules::Reply;
use registry_tests_requests::{Outcome, QUERIES};
use sqlite::Start;
use sqlite_disk::Wary;
use std::alloc::Global;
use std::fs;
use std::process::Abort;

const FOLDER: &str = "spoiled_files";

const PATH: &str = "spoiled_files/registry.db";

/// How many bytes a page has.
const PAGE_LEN: usize = 4096;

/// A place in each field of a database's header: the name of the format, the size of pages, both
/// versions, the bytes of checksums, the three fractions, the change counter, the number of pages,
/// the first free page and the number of free ones, the schema's cookie and format, the size of the
/// cache, the largest root, the encoding, the user version, the mark of incremental vacuums, the
/// application id, the reserved space, the counter again, and the version of the library.
static HEAD: [usize; 23] = [
    0, 16, 18, 19, 20, 21, 22, 23, 24, 28, 32, 36, 40, 44, 48, 52, 56, 60, 64, 68, 72, 92, 96,
];

// A registry in files in memory lasts, and no byte of its header can change.
#[test]
fn a_byte_changed_in_the_head_is_refused(rt: HostRuntime) {
    whole_alone_opens(&rt, rt.alloc());
}

// In the second run, a registry holds what was answered in the first. It opens from its database file
// alone, and none opens where one byte of the header is changed: the first page ends in a checksum of its
// bytes, which any change of one byte makes wrong, and no log replaces the page; and a changed size of
// pages or of checksums isn't a valid size.
fn whole_alone_opens(ends: &impl Abort, alloc: Global) {
    let added = told(ends, alloc, &Kept::nothing(alloc), ADD_ANN, None);
    let kept = told(ends, alloc, &added, ADD_ANN, Some(Refusal::Exists));
    let _kept = told(ends, alloc, &kept, TAGS_OF_NONE, Some(Refusal::NotFound));
    let alone = with_empty_log(ends, alloc, &added.db);
    let _kept = told(ends, alloc, &alone, ADD_ANN, Some(Refusal::Exists));
    for place in &HEAD {
        let bytes = spoiled(ends, alloc, &added.db, *place);
        opens_none(ends, alloc, *place, &with_empty_log(ends, alloc, &bytes));
    }
}

fn with_empty_log(ends: &impl Abort, alloc: Global, db: &[u8]) -> Kept {
    Kept {
        log: Vec::new(alloc),
        db: Vec::from_slice(alloc, db).expect(ends, "memory"),
    }
}

// No registry opens from the files, with the byte at this place changed.
fn opens_none(ends: &impl Abort, alloc: Global, place: usize, kept: &Kept) {
    let visit = Visit::Asks(First::Nothing, &[]);
    let (came, _) = visited(ends, alloc, kept, NEVER, visit);
    same(ends, place, came.unopened, Some(Fault::Database));
}

// These bytes, with the one at this place changed.
fn spoiled(ends: &impl Abort, alloc: Global, whole: &[u8], place: usize) -> Vec<u8> {
    let mut bytes = Vec::from_slice(alloc, whole).expect(ends, "memory");
    if let Some(byte) = bytes.get_mut(place) {
        *byte ^= 0x5a;
    }
    bytes
}

// The files, after a registry in them was asked a line and closed. The request is refused for this, or
// done.
fn told(
    ends: &impl Abort,
    alloc: Global,
    kept: &Kept,
    line: &str,
    refusal: Option<Refusal>,
) -> Kept {
    let requests = requests(ends, alloc, line);
    let lists = [Asks::InTurn(requests.as_slice())];
    let visit = Visit::Asks(First::Nothing, &lists);
    let (came, kept) = visited(ends, alloc, kept, NEVER, visit);
    same(ends, line, are_told(&came.outcomes, refusal), true);
    same(ends, "the close", came.is_whole, true);
    kept
}

fn are_told(outcomes: &[Outcome], refusal: Option<Refusal>) -> bool {
    match outcomes {
        [Ok(Reply::Done)] => refusal.is_none(),
        [Ok(Reply::Refused(given))] => refusal == Some(*given),
        _ => false,
    }
}

// With no byte changed, the registry opens and shows what it showed before; with one changed, none
// opens.
#[test]
fn a_byte_changed_in_any_page_is_never_read(rt: HostRuntime) {
    let _ = fs::remove_dir_all(&rt, FOLDER);
    fs::create_dir(&rt, FOLDER).expect(&rt, "a folder");
    lasts_in_a_file(&rt, &rt);
    no_changed_page_opens(&rt, &rt);
    let _ = fs::remove_dir_all(&rt, FOLDER);
}

fn lasts_in_a_file(rt: &HostRuntime, ends: &impl Abort) {
    let commands = requests(ends, rt.alloc(), COMMANDS);
    let queries = requests(ends, rt.alloc(), QUERIES);
    let queried = Asks::InTurn(queries.as_slice());
    let made = outcomes_at(rt, ends, &[Asks::InTurn(commands.as_slice()), queried]);
    let found = outcomes_at(rt, ends, &[queried]);
    let is_shown = made.get(commands.len()..) == Some(found.as_slice());
    same(ends, "what is shown", is_shown, true);
}

fn no_changed_page_opens(rt: &HostRuntime, ends: &impl Abort) {
    let whole = fs::read(rt, PATH).expect(ends, "a file");
    for place in (PAGE_LEN / 2..whole.len()).step_by(PAGE_LEN) {
        let bytes = spoiled(ends, rt.alloc(), &whole, place);
        fs::write(rt, PATH, bytes.as_slice()).expect(ends, "a file");
        no_file_opens(rt, ends, place);
    }
}

// No registry opens from the file, and what is left of it is handed back.
fn no_file_opens(rt: &HostRuntime, ends: &impl Abort, place: usize) {
    match came_at(rt, ends, Wary, &[]) {
        Ok(_came) => panic!(ends; "a registry opens, with byte {place} changed"),
        Err(refused) => same(ends, place, refused, (Fault::Database, true)),
    }
}

// The outcomes of these requests at a registry from the file, which is closed afterwards.
fn outcomes_at(rt: &HostRuntime, ends: &impl Abort, lists: &[Asks]) -> Vec<Outcome> {
    match came_at(rt, ends, Wary, lists) {
        Ok(came) => outcomes_of(ends, came),
        Err((fault, _)) => panic!(ends; "nothing opens: {fault:?}"),
    }
}

fn outcomes_of(ends: &impl Abort, came: Came) -> Vec<Outcome> {
    let Came {
        unopened: _,
        outcomes,
        is_whole,
    } = came;
    same(ends, "answered", answered(&outcomes), outcomes.len());
    same(ends, "the close", is_whole, true);
    outcomes
}

// What comes of it where a registry from the file is asked and closed; or a fault, and whether what is
// left of the file was handed back. It is the only caller of `open_from`, whose contract says far more.
fn came_at<S: Start>(
    rt: &HostRuntime,
    ends: &impl Abort,
    start: S,
    lists: &[Asks],
) -> Result<Came, (Fault, bool)> {
    match Registry::open_from(rt, PATH, start) {
        Ok(registry) => {
            let (came, _files) = asked_and_closed(
                ends,
                rt.alloc(),
                registry,
                First::Nothing,
                lists,
            );
            Ok(came)
        }
        Err((fault, left)) => Err((fault, left.is_some())),
    }
}
