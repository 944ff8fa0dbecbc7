//! What may lie at the path of a registry's file.

use crate::tests::at_path::change;
use crate::tests::program::{DONE, begin, end, leaves};
use registry_tables::TABLES;
use std::fs;
use std::process::Abort;

/// The folder of the file.
pub(crate) const FOLDER: &str = "files_of_registries";

/// The path of the file.
pub(crate) const PATH: &str = "files_of_registries/registry.db";

/// The path of its log.
pub(crate) const LOG: &str = "files_of_registries/registry.db-wal";

/// A command on the registry in the file.
pub(crate) const ADD_ANN: &str = "--db files_of_registries/registry.db --operator user-add ann";

/// How many of a registry's tables the first schema has.
const OLDEST_COUNT: usize = 14;

/// What lies at the path.
#[derive(Clone, Copy, Debug)]
pub(crate) enum Lies {
    /// Nothing, and no folder for it.
    Nowhere,
    /// Nothing.
    Nothing,
    /// A file of this text.
    Text(&'static str),
    /// A folder.
    Folder,
    /// A registry that has the user `ann`.
    Registry,
    /// The file of that registry, which has a second name.
    Linked,
    /// The first bytes of that file, this many.
    Cut(usize),
    /// That file, with the byte at this place changed.
    Spoiled(usize),
    /// That registry, after a statement was run on it.
    Changed(&'static str),
    /// A database of another program, which a statement made.
    Program(&'static str),
    /// The tables of the first schema, without a number.
    Older,
}

/// Puts this at the path, in a new folder.
pub(crate) fn lay(rt: &HostRuntime, ends: &impl Abort, lies: Lies) {
    if let Lies::Nowhere = lies {
        return end(rt, FOLDER);
    }
    begin(rt, ends, FOLDER);
    match lies {
        Lies::Nowhere | Lies::Nothing => {}
        Lies::Text(text) => write(rt, ends, text.as_bytes()),
        Lies::Folder => fs::create_dir(rt, PATH).expect(ends, "a folder"),
        Lies::Program(text) => change(rt, ends, PATH, text),
        Lies::Older => change_all(rt, ends, &TABLES[..OLDEST_COUNT]),
        _ => lay_registry(rt, ends, lies),
    }
}

// Puts a registry there, whose file holds everything, and then does to it what is said.
fn lay_registry(rt: &HostRuntime, ends: &impl Abort, lies: Lies) {
    leaves(rt, ends, ADD_ANN, DONE);
    let text = match lies {
        Lies::Changed(text) => text,
        _ => "",
    };
    change(rt, ends, PATH, text);
    match lies {
        Lies::Linked => {
            let linked = fs::hard_link(rt, PATH, "files_of_registries/other.db");
            linked.expect(ends, "a second name");
        }
        Lies::Cut(length) => cut(rt, ends, length),
        Lies::Spoiled(place) => spoil(rt, ends, place),
        _ => {}
    }
}

fn change_all(rt: &HostRuntime, ends: &impl Abort, texts: &[&str]) {
    for text in texts {
        change(rt, ends, PATH, text);
    }
}

fn write(rt: &HostRuntime, ends: &impl Abort, bytes: &[u8]) {
    fs::write(rt, PATH, bytes).expect(ends, "a file");
}

fn cut(rt: &HostRuntime, ends: &impl Abort, length: usize) {
    let bytes = fs::read(rt, PATH).expect(ends, "a file");
    write(rt, ends, bytes.get(..length).expect(ends, "enough bytes"));
}

fn spoil(rt: &HostRuntime, ends: &impl Abort, place: usize) {
    let mut bytes = fs::read(rt, PATH).expect(ends, "a file");
    match bytes.get_mut(place) {
        Some(byte) => *byte ^= 0x5a,
        None => panic!(ends; "the file ends before byte {place}"),
    }
    write(rt, ends, &bytes);
}
