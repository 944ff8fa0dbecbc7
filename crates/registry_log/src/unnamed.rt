//! Requests whose user isn't looked up yet.

ghost use Rattle.std.specs.Prelude.{◌≡◌, IfErr, IfOk};
ghost use Rattle.registry_log.specs.Logs.{BearsToken, line_as};

use crate::entry::{Entry, Kind};
use registry_names::{Blob, Fault, Moment};
use registry_publish::TokenDigest;
use registry_rules::Credential;
use registry_service::credential;
use registry_wire::FieldValue;
use std::alloc::Global;

/// A request that the registry wasn't asked, and the token by which its user is to be looked up.
#[derive(Drop)]
pub(crate) struct Unnamed {
    pub(crate) at: Moment,
    pub(crate) token: TokenDigest,
    pub(crate) kind: Kind,
    pub(crate) target: Blob,
    pub(crate) status: u16,
    pub(crate) length: u64,
}

impl Unnamed {
    /// Its line, with this user, if one is known by its token. `Memory` is returned where no memory is
    /// left.
    pub(crate) fn line(&self, alloc: Global, user: &str) -> Result<Vec<u8>, Fault>
        ensures ok { IfOk result (λ line. line.items ≡ line_as self.now user.now) }
        ensures err { IfErr result (λ fault. fault ≡ Fault.Memory) }
    {
        let entry = Entry {
            at: self.at,
            user,
            kind: self.kind,
            target: self.target.as_slice(),
            status: self.status,
            length: self.length,
            micros: None,
        };
        entry.line(alloc)
    }
}

/// The token by which a caller is known, if they show one in form.
pub(crate) fn token_in(authorization: &FieldValue) -> Option<TokenDigest>
    ensures { BearsToken authorization.now result }
{
    let Ok(who) = credential(authorization) else {
        return None;
    };
    match &who {
        Credential::Token(digest) => Some(*digest),
        Credential::Operator | Credential::User(_) | Credential::Anonymous => None,
    }
}
