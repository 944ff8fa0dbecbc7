//! Registries in files in memory.

use crate::tests::asking::{does, request};
use registry_desk::Registry;
use registry_tests_requests::{Outcome, outcome_of};
use sqlite::{Alter, Connection, FileStore, Files, Options};
use sqlite_disk::Disk;
use std::alloc::Global;
use std::process::Abort;

/// The registry in the files. The contract of `open_files` says far more than a test needs, and every
/// caller is checked with all of it: so this is the only caller.
pub(crate) fn opened<D: Disk + Drop>(
    ends: &impl Abort,
    alloc: Global,
    files: Files<D>,
) -> Registry<FileStore<D>> {
    if !files.may_be_used() {
        panic!(ends; "the files can't be used");
    }
    match Registry::open_files(alloc, files, Options::new(1)) {
        Ok(registry) => registry,
        Err(_) => panic!(ends; "the files don't open"),
    }
}

/// The registry in the files, after it was asked the requests of a text, and what it answers for the
/// tags of `@lab/kit`.
pub(crate) fn asked<D: Disk + Drop>(
    ends: &impl Abort,
    alloc: Global,
    files: Files<D>,
    text: &str,
) -> (Registry<FileStore<D>>, Outcome) {
    tags_after(ends, alloc, opened(ends, alloc, files), text)
}

/// The connection of a registry. Only this function ends one in files, since each call that does takes
/// a quarter of a minute to check.
pub(crate) fn released<D: Disk + Drop>(
    registry: Registry<FileStore<D>>,
) -> Connection<FileStore<D>> {
    registry.release()
}

// A registry that was asked the requests of a text, and what it answers for the tags of `@lab/kit`.
fn tags_after<S: Alter + Drop>(
    ends: &impl Abort,
    alloc: Global,
    registry: Registry<S>,
    text: &str,
) -> (Registry<S>, Outcome) {
    let mut registry = registry;
    does(ends, alloc, &mut registry, text);
    let asked = request(ends, alloc, "--as bob tags @lab/kit");
    let tags = outcome_of(alloc, &mut registry, &asked);
    (registry, tags)
}
