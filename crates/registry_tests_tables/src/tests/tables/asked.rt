//! What a line of a case asks for.

use registry_access::{Caller, Grant};
use registry_names::{Ident, Message, Moment, Name, Status, Ver};
use registry_publish::{PublishForm, TokenDigest};
use std::alloc::{AllocError, Global};
use std::process::Abort;

/// The archive `abc` in Base64.
const ABC: &str = "YWJj";

/// A line, and what its words say.
#[derive(Drop)]
pub struct Asked<'a> {
    /// What is to be done: its first word.
    pub verb: &'a str,
    /// Its words; those that it lacks are empty.
    pub words: [&'a str; 6],
    /// The moment of the fourth word.
    pub at: Moment,
    /// The moment of the fifth word.
    pub until: Moment,
    /// The digest of the token of the second word: 32 times this byte.
    pub digest: TokenDigest,
    /// The user of the last word, or nobody where it isn't in form.
    pub caller: Caller,
    name: Option<Name>,
    version: Option<Ver>,
    form: Option<PublishForm>,
    message: Option<Message>,
}

impl<'a> Asked<'a> {
    /// What this line asks for.
    pub fn of(rt: &impl Abort, alloc: Global, line: &'a str) -> Asked<'a> {
        let (words, last) = words_of(line);
        let byte = words[1].parse::<u8>().unwrap_or(0);
        let body = body_of(alloc, &words).expect(rt, "memory");
        Asked {
            verb: words[0],
            words,
            at: Moment::clamped(words[3].parse::<i64>().unwrap_or(0)),
            until: Moment::clamped(words[4].parse::<i64>().unwrap_or(0)),
            digest: TokenDigest::from_slice(&[byte; 32]).expect(rt, "a digest"),
            caller: caller_of(alloc, last),
            name: Name::parse(alloc, words[1]).ok(),
            version: Ver::parse(alloc, words[2]).ok(),
            form: PublishForm::read(alloc, body.as_bytes()).ok(),
            message: Message::parse(alloc, words[3]).ok(),
        }
    }

    /// The package of its second word.
    pub fn name(&self, rt: &impl Abort) -> &Name {
        self.name.as_ref().expect(rt, "a package")
    }

    /// The version of its third word.
    pub fn version(&self, rt: &impl Abort) -> &Ver {
        self.version.as_ref().expect(rt, "a version")
    }

    /// The user of its last word.
    pub fn user(&self, rt: &impl Abort) -> &Ident {
        match &self.caller {
            Caller::User(user) => user,
            _ => panic!(rt; "no user"),
        }
    }

    /// The message of its fourth word.
    pub fn message(&self, rt: &impl Abort) -> &Message {
        self.message.as_ref().expect(rt, "a message")
    }

    /// The version of a package that is published, whose manifest has its name, its version, and what
    /// the sixth word adds. Its archive repeats the bytes `abc` as often as the fifth word says.
    pub fn form(&self, rt: &impl Abort) -> &PublishForm {
        self.form.as_ref().expect(rt, "a body in form")
    }

    /// The status of its third word.
    pub fn status(&self, rt: &impl Abort) -> Status {
        Status::parse(self.words[2]).expect(rt, "a status")
    }

    /// What its fifth word grants.
    pub fn grant(&self, rt: &impl Abort) -> Grant {
        Grant::parse(self.words[4]).expect(rt, "a grant")
    }
}

// The words of a line, and the last of them.
fn words_of(line: &str) -> ([&str; 6], &str) {
    let mut words = [""; 6];
    let mut last = "";
    for (place, word) in line.split(' ').enumerate() {
        if let Some(slot) = words.get_mut(place) {
            *slot = word;
        }
        last = word;
    }
    (words, last)
}

fn caller_of(alloc: Global, word: &str) -> Caller {
    match Ident::parse(alloc, word) {
        Ok(user) => Caller::User(user),
        Err(_) => Caller::Anonymous,
    }
}

// The body of the version that the words name.
fn body_of(alloc: Global, words: &[&str; 6]) -> Result<String, AllocError> {
    let [_, name, version, _, times, more] = *words;
    let archive = ABC.repeat(alloc, times.parse::<usize>().unwrap_or(1))?;
    format!(in alloc;
        "{{\"name\":\"{name}\",\"versions\":{{\"{version}\":{{\"name\":\"{name}\",\"version\":\"{version}\"{more}}}}},\"_attachments\":{{\"a\":{{\"data\":\"{archive}\"}}}}}}"
    )
}
