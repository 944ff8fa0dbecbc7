//! What breaks a rule.

use crate::rule::Rule;
use crate::texts::TextTable;
use registry_names::{Blob, Text};

/// A thing that a row of a table is about.
#[derive(Debug, PartialEq, Eq, Drop)]
pub enum Thing {
    /// A token, by the SHA-256 of its text.
    Token {
        /// The digest.
        digest: Blob,
    },
    /// An organisation.
    Organisation {
        /// Its name.
        organisation: Text,
    },
    /// A member of an organisation.
    Member {
        /// The organisation.
        organisation: Text,
        /// The member.
        user: Text,
    },
    /// A team of an organisation.
    Team {
        /// The organisation.
        organisation: Text,
        /// The team.
        team: Text,
    },
    /// A user who is in a team.
    TeamMember {
        /// The organisation.
        organisation: Text,
        /// The team.
        team: Text,
        /// The user.
        user: Text,
    },
    /// A package that was published, now or once.
    Package {
        /// Its name.
        package: Text,
    },
    /// What a team is granted on a package.
    Grant {
        /// The organisation.
        organisation: Text,
        /// The team.
        team: Text,
        /// The package.
        package: Text,
    },
    /// A maintainer of a package.
    Maintainer {
        /// The package.
        package: Text,
        /// The maintainer.
        user: Text,
    },
    /// A live version of a package.
    Version {
        /// The package.
        package: Text,
        /// The version.
        version: Text,
    },
    /// A stored need of a version.
    Need {
        /// The package.
        package: Text,
        /// The version.
        version: Text,
        /// The package that it needs.
        target: Text,
        /// The range of versions that it needs.
        range: Text,
    },
    /// That a version has an archive.
    Held {
        /// The package.
        package: Text,
        /// The version.
        version: Text,
    },
    /// An archive that is stored.
    Archive {
        /// Its number.
        number: i64,
    },
    /// A user.
    User {
        /// Their name.
        user: Text,
    },
    /// A version that was withdrawn.
    Withdrawn {
        /// The package.
        package: Text,
        /// The version.
        version: Text,
    },
    /// A tag of a package.
    Tag {
        /// The package.
        package: Text,
        /// The tag.
        tag: Text,
    },
    /// A row of `needs`, the table of schema 1 for what a version needs.
    Target {
        /// The package.
        package: Text,
        /// The version.
        version: Text,
        /// The package that it needs.
        target: Text,
    },
    /// The table `sqlite_sequence`, in which SQLite counts the numbers of archives.
    Counter,
    /// A row of a table, by its rowid.
    Row {
        /// The table.
        table: TextTable,
        /// The rowid.
        row: i64,
    },
}

/// A rule that is broken, and what breaks it.
#[derive(Debug, PartialEq, Eq, Drop)]
pub struct Problem {
    /// The rule.
    pub rule: Rule,
    /// What breaks it.
    pub thing: Thing,
}

/// Whether a rule holds for some row.
#[derive(Clone, Copy, Drop)]
pub(crate) struct Test {
    /// The rule.
    pub(crate) rule: Rule,
    /// Whether it holds.
    pub(crate) holds: bool,
}
