//! A file that is made once, and has to be there from then on.

use super::{DONE, begin, end, leaves};
use crate::outcome::same;
use std::fs;
use std::process::Abort;

const FILE: &str = "files_of_inits/registry.db";

const LOG: &str = "files_of_inits/registry.db-wal";

const INIT: &str = "--db files_of_inits/registry.db init";

const ADD_ANN: &str = "--db files_of_inits/registry.db --existing --operator user-add ann";

const NEW_TOKEN: &str = "--db files_of_inits/registry.db --existing --operator token-new bob";

const SERVE: &str =
    "--db files_of_inits/registry.db --existing serve --socket files_of_inits/http.socket";

const MISSING: &str = "fault: Database\nthe registry's file isn't there or is empty\n";

const FOREIGN: &str =
    "fault: Database\nthe file holds no registry, or was changed by another hand\n";

/// A file that is there stays, and so does a log.
const TAKEN: &str =
    "fault: File\nthe registry's file is there, or its -wal, -part or -part-wal: move it away first\n";

#[test]
fn a_file_is_made_once(rt: HostRuntime) {
    begin(&rt, &rt, "files_of_inits");
    is_refused(&rt, &rt, MISSING);
    same(&rt, FILE, is_there(&rt, &rt, FILE), false);
    fs::write(&rt, FILE, b"").expect(&rt, "an empty file");
    is_refused(&rt, &rt, MISSING);
    fs::write(&rt, FILE, &[0; 4096]).expect(&rt, "a file of zeros");
    is_refused(&rt, &rt, FOREIGN);
    leaves(&rt, &rt, INIT, (3, "", TAKEN));
    fs::remove_file(&rt, FILE).expect(&rt, "no file");
    fs::write(&rt, LOG, b"").expect(&rt, "a log");
    leaves(&rt, &rt, INIT, (3, "", TAKEN));
    same(&rt, FILE, is_there(&rt, &rt, FILE), false);
    fs::remove_file(&rt, LOG).expect(&rt, "no log");
    leaves(&rt, &rt, INIT, DONE);
    same(&rt, LOG, is_there(&rt, &rt, LOG), false);
    leaves(&rt, &rt, ADD_ANN, DONE);
    leaves(&rt, &rt, INIT, (3, "", TAKEN));
    leaves(&rt, &rt, ADD_ANN, (1, "", "refused: Exists\n"));
    end(&rt, "files_of_inits");
}

// Whoever needs the file to be there is told this, and makes no log.
fn is_refused(rt: &HostRuntime, ends: &impl Abort, said: &str) {
    for line in [ADD_ANN, NEW_TOKEN, SERVE] {
        leaves(rt, ends, line, (3, "", said));
    }
    same(ends, LOG, is_there(rt, ends, LOG), false);
}

fn is_there(rt: &HostRuntime, ends: &impl Abort, path: &str) -> bool {
    fs::exists(rt, path).expect(ends, "a look at the folder")
}
