//! Copies of a registry's file, over files in memory.

use crate::outcome::same;
use crate::tests::in_files::asked;
use crate::tests::lists::LAB_KIT;
use registry_files::write_copy;
use registry_tests_requests::Outcome;
use sqlite::Files;
use sqlite_disk::{Disk, Memory};
use std::alloc::Global;
use std::process::Abort;

#[test]
fn a_copy_is_one_file_with_all_of_the_registry(rt: HostRuntime) {
    let alloc = rt.alloc();
    let (copy, tags) = copy_of(&rt, alloc, Memory::new(alloc), Memory::new(alloc), LAB_KIT);
    let mut memory = Memory::new(alloc);
    memory.write_at(0, &copy).expect(&rt, "bytes");
    memory.sync().expect(&rt, "bytes");
    let (again, same_tags) = copy_of(&rt, alloc, memory, Memory::new(alloc), "");
    same(&rt, "the tags", &same_tags, &tags);
    same(&rt, "the bytes", again == copy, true);
}

// The copy of the registry in a file without a log, after it was asked the requests of a text, and
// what it answers for the tags of `@lab/kit`.
fn copy_of<D: Disk + Drop>(
    ends: &impl Abort,
    alloc: Global,
    db: D,
    log: D,
    text: &str,
) -> (Vec<u8>, Outcome) {
    let (registry, tags) = asked(ends, alloc, Files { log, db }, text);
    let mut copy = Vec::new(alloc);
    match write_copy(registry, &mut copy) {
        Ok(_files) => (copy, tags),
        Err(_) => panic!(ends; "the copy isn't made"),
    }
}
