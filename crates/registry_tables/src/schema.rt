//! The tables of schema 3.
//!
//! Each has one primary key of its first columns, except `archives`, whose key is a number that
//! SQLite counts. No column may be null, and every value has its column's type (`STRICT`). A
//! foreign key names rows that must be there; where it cascades, a row goes with the one that it
//! names.
//!
//! The order is for good, since the tree of each table and index follows from it: the fourteen
//! tables of schema 1 come first, then what schema 2 has beside them, then the rest.

ghost use Rattle.std.specs.Prelude.{◌≡◌, IsErr, OnOk, length, map};
ghost use Rattle.sqlite.specs.State.{HasCleanDisk};
ghost use Rattle.registry_rows.specs.Frames.{Stays};
ghost use Rattle.registry_rows.specs.Ready.{Leaves};
ghost use Rattle.registry_tables.specs.Schema.{schema};
ghost use Rattle.registry_tables.specs.Contents.{contents};
ghost use Rattle.registry_tables.specs.Creation.{creation};
ghost use Rattle.registry_tables.specs.Effects.{HasNoTables, InForm, shown};
ghost use Rattle.registry_tables.specs.Fresh.{HasMade, fresh};
ghost use Rattle.registry_tables.specs.Opening.{HasCreated, HasRun};

use crate::meta::put_schema;
use registry_names::Fault;
use registry_rows::write;
use sqlite::{Alter, Transaction};

/// The texts that make the tables and the indexes, in their order. The first 14 make those of
/// schema 1, the first 17 those of schema 2.
pub const TABLES: [&str; 24] = [
    "CREATE TABLE users (name TEXT NOT NULL, PRIMARY KEY (name)) STRICT",
    "CREATE TABLE tokens (digest BLOB NOT NULL, user TEXT NOT NULL, PRIMARY KEY (digest), FOREIGN KEY (user) REFERENCES users) STRICT",
    "CREATE TABLE orgs (name TEXT NOT NULL, PRIMARY KEY (name)) STRICT",
    "CREATE TABLE members (org TEXT NOT NULL, user TEXT NOT NULL, role INTEGER NOT NULL, PRIMARY KEY (org, user), FOREIGN KEY (org) REFERENCES orgs, FOREIGN KEY (user) REFERENCES users) STRICT",
    "CREATE TABLE teams (org TEXT NOT NULL, team TEXT NOT NULL, PRIMARY KEY (org, team), FOREIGN KEY (org) REFERENCES orgs) STRICT",
    "CREATE TABLE team_members (org TEXT NOT NULL, team TEXT NOT NULL, user TEXT NOT NULL, PRIMARY KEY (org, team, user), FOREIGN KEY (org, team) REFERENCES teams ON DELETE CASCADE, FOREIGN KEY (org, user) REFERENCES members ON DELETE CASCADE) STRICT",
    "CREATE TABLE packages (name TEXT NOT NULL, status INTEGER NOT NULL, PRIMARY KEY (name)) STRICT",
    "CREATE TABLE grants (org TEXT NOT NULL, team TEXT NOT NULL, package TEXT NOT NULL, level INTEGER NOT NULL, PRIMARY KEY (org, team, package), FOREIGN KEY (org, team) REFERENCES teams ON DELETE CASCADE, FOREIGN KEY (package) REFERENCES packages) STRICT",
    "CREATE TABLE owners (package TEXT NOT NULL, user TEXT NOT NULL, PRIMARY KEY (package, user), FOREIGN KEY (package) REFERENCES packages, FOREIGN KEY (user) REFERENCES users) STRICT",
    "CREATE TABLE versions (package TEXT NOT NULL, version TEXT NOT NULL, published INTEGER NOT NULL, manifest TEXT NOT NULL, deprecated TEXT NOT NULL, archive BLOB NOT NULL, PRIMARY KEY (package, version), FOREIGN KEY (package) REFERENCES packages) STRICT",
    "CREATE TABLE spent (package TEXT NOT NULL, version TEXT NOT NULL, published INTEGER NOT NULL, withdrawn INTEGER NOT NULL, PRIMARY KEY (package, version), FOREIGN KEY (package) REFERENCES packages) STRICT",
    "CREATE TABLE tags (package TEXT NOT NULL, tag TEXT NOT NULL, version TEXT NOT NULL, PRIMARY KEY (package, tag), FOREIGN KEY (package, version) REFERENCES versions) STRICT",
    "CREATE TABLE needs (package TEXT NOT NULL, version TEXT NOT NULL, target TEXT NOT NULL, PRIMARY KEY (package, version, target), FOREIGN KEY (package, version) REFERENCES versions ON DELETE CASCADE) STRICT",
    "CREATE TABLE meta (name TEXT NOT NULL, value INTEGER NOT NULL, PRIMARY KEY (name)) STRICT",
    "CREATE TABLE held (package TEXT NOT NULL, version TEXT NOT NULL, archive INTEGER NOT NULL, PRIMARY KEY (package, version), FOREIGN KEY (package, version) REFERENCES versions ON DELETE CASCADE, FOREIGN KEY (archive) REFERENCES archives) STRICT",
    "CREATE TABLE archives (id INTEGER PRIMARY KEY AUTOINCREMENT, integrity TEXT NOT NULL, bytes BLOB NOT NULL) STRICT",
    "CREATE INDEX archives_by_integrity ON archives (integrity)",
    "CREATE TABLE need_ranges (package TEXT NOT NULL, version TEXT NOT NULL, target TEXT NOT NULL, range TEXT NOT NULL, PRIMARY KEY (package, version, target, range), FOREIGN KEY (package, version) REFERENCES versions ON DELETE CASCADE) STRICT",
    "CREATE INDEX need_ranges_by_target ON need_ranges (target, package, version, range)",
    "CREATE INDEX held_by_archive ON held (archive)",
    "CREATE INDEX tokens_by_user ON tokens (user, digest)",
    "CREATE INDEX members_by_user ON members (user, org)",
    "CREATE INDEX team_members_by_user ON team_members (org, user, team)",
    "CREATE INDEX owners_by_user ON owners (user, package)",
];

/// Makes the tables in a database that has none: all of them empty, except the number of the
/// schema. `Database` is returned where a table of one of their names is there already.
pub fn create<S: Alter>(tx: &mut Transaction<'_, S>) -> Result<(), Fault>
    ensures stays { Stays S.Store tx.old tx.new }
    ensures made { HasNoTables S.Store tx.old → HasCleanDisk (shown S.Store tx.new)
        → OnOk result (Leaves schema contents fresh (shown S.Store tx.new)) }
    ensures created { OnOk result (HasCreated S.Store tx.old tx.new) }
    ensures refused { InForm S.Store tx.old → HasCleanDisk (shown S.Store tx.new) → IsErr result }
{
    create_tables(tx, &TABLES)?;
    put_schema(tx)
}

// Runs the texts that make the tables.
fn create_tables<S: Alter>(tx: &mut Transaction<'_, S>, texts: &[&str]) -> Result<(), Fault>
    requires texts { map (λ text. text.now) texts.now ≡ creation }
    ensures stays { Stays S.Store tx.old tx.new }
    ensures made { HasNoTables S.Store tx.old → OnOk result (HasMade S.Store 24 tx.new) }
    ensures ran { OnOk result (HasRun S.Store (length creation) tx.old tx.new) }
    ensures refused { InForm S.Store tx.old → HasCleanDisk (shown S.Store tx.new) → IsErr result }
{
    for text in texts {
        write(tx, text, &[])?;
    }
    Ok(())
}
