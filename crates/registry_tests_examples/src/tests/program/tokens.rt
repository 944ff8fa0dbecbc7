//! Tokens that the program makes, which are random.

use super::{DONE, Failing, begin, call, end, leaves};
use crate::outcome::same;
use crate::tests::at_path::number_at;
use registry_publish::TokenDigest;
use std::alloc::Global;
use std::process::Abort;

const PATH: &str = "files_of_tokens/registry.db";

const ADD_ANN: &str = "--db files_of_tokens/registry.db --operator user-add ann";

const NEW_TOKEN: &str = "--db files_of_tokens/registry.db --operator token-new ann";

#[test]
fn made_tokens_are_kept_by_their_digests(rt: HostRuntime) {
    begin(&rt, &rt, "files_of_tokens");
    leaves(&rt, &rt, ADD_ANN, DONE);
    let first = made(&rt, &rt);
    let second = made(&rt, &rt);
    let are_one = first.as_str() == second.as_str();
    same(&rt, "two tokens", are_one, false);
    let count = number_at(&rt, &rt, PATH, "", "SELECT count(*) FROM tokens");
    same(&rt, "tokens", count, 2);
    is_kept(&rt, &rt, first.as_str());
    is_kept(&rt, &rt, second.as_str());
    end(&rt, "files_of_tokens");
}

// The token that the program makes for ann, which it prints on a line.
fn made(rt: &HostRuntime, ends: &impl Abort) -> String {
    let called = call(rt, ends, NEW_TOKEN, Failing::None);
    let (status, printed, errors) = called.left();
    same(ends, NEW_TOKEN, (status, errors), (0, ""));
    let token = printed.strip_suffix('\n').expect(ends, "a line");
    String::from_str(rt.alloc(), token).expect(ends, "memory")
}

// The registry has the token's digest, as one of ann.
fn is_kept(rt: &HostRuntime, ends: &impl Abort, token: &str) {
    let digest = TokenDigest::of(token).expect(ends, "a token");
    let query = query_of(ends, rt.alloc(), digest.as_slice());
    let count = number_at(rt, ends, PATH, "", query.as_str());
    same(ends, token, count, 1);
}

// How many tokens ann has with this digest.
fn query_of(ends: &impl Abort, alloc: Global, digest: &[u8]) -> String {
    let query = "SELECT count(*) FROM tokens WHERE user = 'ann' AND digest = x'";
    let mut query = String::from_str(alloc, query).expect(ends, "memory");
    for byte in digest {
        let digits = format!(in alloc; "{byte:02x}").expect(ends, "memory");
        query.push_str(digits.as_str()).expect(ends, "memory");
    }
    query.push('\'').expect(ends, "memory");
    query
}
