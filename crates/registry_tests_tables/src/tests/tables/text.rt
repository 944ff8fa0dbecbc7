//! What was loaded, as a text.

use registry_access::{Grant, Role, Standing};
use registry_names::{Blob, DistTag, Ident, Status, Text};
use registry_packument::{Granted, VersionTime};
use registry_publish::TokenDigest;
use std::alloc::{AllocError, Global};
use std::process::Abort;

/// What a call answers.
#[derive(Drop)]
pub enum Loaded {
    Done,
    IsSo(bool),
    Status(Option<Status>),
    Tags(Vec<DistTag>),
    Times(Vec<VersionTime>),
    Archive(Option<Blob>),
    Names(Vec<Text>),
    Grants(Vec<Grant>),
    Granted(Vec<Granted>),
    Standing(Standing),
    User(Option<Ident>),
    Digests(Vec<TokenDigest>),
}

/// Nothing for a call that only writes, and otherwise words, each after a space: `true` or `false`;
/// a value, or `none`; the values of a list.
pub fn text_of(rt: &impl Abort, alloc: Global, loaded: &Loaded) -> String {
    let mut text = String::new(alloc);
    match loaded {
        Loaded::Done => {}
        Loaded::IsSo(is_so) => push(rt, &mut text, &[" ", bool_word(*is_so)]),
        Loaded::Status(status) => push(rt, &mut text, &[" ", status_word(*status)]),
        Loaded::Tags(tags) => push_tags(rt, &mut text, tags),
        Loaded::Times(times) => push_times(rt, alloc, &mut text, times),
        Loaded::Archive(archive) => push_archive(rt, alloc, &mut text, archive),
        Loaded::Names(names) => push_names(rt, &mut text, names),
        Loaded::Grants(grants) => push_grants(rt, &mut text, grants),
        Loaded::Granted(rows) => push_granted(rt, &mut text, rows),
        Loaded::Standing(standing) => push_standing(rt, &mut text, standing),
        Loaded::User(user) => push(rt, &mut text, &[" ", user_word(user)]),
        Loaded::Digests(digests) => push_digests(rt, alloc, &mut text, digests),
    }
    text
}

/// Adds these texts.
pub fn push(rt: &impl Abort, text: &mut String, parts: &[&str]) {
    for part in parts {
        text.push_str(part).expect(rt, "memory");
    }
}

// Adds a text that was made for it.
fn push_made(rt: &impl Abort, text: &mut String, made: Result<String, AllocError>) {
    let made = made.expect(rt, "memory");
    text.push_str(&made).expect(rt, "memory");
}

fn status_word(status: Option<Status>) -> &'static str {
    match status {
        Some(status) => status.text(),
        None => "none",
    }
}

fn role_word(role: Option<Role>) -> &'static str {
    match role {
        Some(role) => role.text(),
        None => "none",
    }
}

fn user_word(user: &Option<Ident>) -> &str {
    match user {
        Some(user) => user.text(),
        None => "none",
    }
}

fn bool_word(is_so: bool) -> &'static str {
    if is_so { "true" } else { "false" }
}

// Each tag with its version.
fn push_tags(rt: &impl Abort, text: &mut String, tags: &[DistTag]) {
    for named in tags {
        push(
            rt,
            text,
            &[" ", named.tag.as_str(), "=", named.version.as_str()],
        );
    }
}

// Each version with the second in which it was published.
fn push_times(rt: &impl Abort, alloc: Global, text: &mut String, times: &[VersionTime]) {
    for time in times {
        let version = time.version.as_str();
        let second = time.published.seconds();
        push_made(rt, text, format!(in alloc; " {version}={second}"));
    }
}

// The length of an archive, and the text of its last three bytes; or `none`.
fn push_archive(rt: &impl Abort, alloc: Global, text: &mut String, archive: &Option<Blob>) {
    let Some(archive) = archive else {
        return push(rt, text, &[" none"]);
    };
    let bytes = archive.as_slice();
    let length = bytes.len();
    let end = str::from_utf8(&bytes[length.saturating_sub(3)..]).unwrap_or("no text");
    push_made(rt, text, format!(in alloc; " {length}={end}"));
}

fn push_names(rt: &impl Abort, text: &mut String, names: &[Text]) {
    for name in names {
        push(rt, text, &[" ", name.as_str()]);
    }
}

fn push_grants(rt: &impl Abort, text: &mut String, grants: &[Grant]) {
    for grant in grants {
        push(rt, text, &[" ", grant.text()]);
    }
}

// Each package with what is granted on it.
fn push_granted(rt: &impl Abort, text: &mut String, rows: &[Granted]) {
    for row in rows {
        push(rt, text, &[" ", row.name.as_str(), "="]);
        push(rt, text, &[row.grant.text()]);
    }
}

// Whether the organisation is there, the role in it, the package's status, whether the caller is
// a maintainer, and what they are granted.
fn push_standing(rt: &impl Abort, text: &mut String, standing: &Standing) {
    push(rt, text, &[" ", bool_word(standing.organisation)]);
    push(rt, text, &[" ", role_word(standing.role)]);
    push(rt, text, &[" ", status_word(standing.status)]);
    push(rt, text, &[" ", bool_word(standing.maintainer)]);
    push_grants(rt, text, &standing.grants);
}

// The first byte of each digest.
fn push_digests(rt: &impl Abort, alloc: Global, text: &mut String, digests: &[TokenDigest]) {
    for digest in digests {
        let first = digest.as_slice()[0];
        push_made(rt, text, format!(in alloc; " {first}"));
    }
}
