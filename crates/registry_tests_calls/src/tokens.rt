//! Tokens that are made: what they are made of, the line that adds one, and what is printed for it.

use crate::outcome::same;
use crate::parts::text;
use registry_cli::{NewToken, TOKEN_BYTES, Who, action_of, print_token, token_of};
use registry_names::{Refusal, ToWrite};
use registry_publish::TokenDigest;
use registry_rules::{Action, Reply};
use std::alloc::Global;
use std::process::Abort;

const BYTES: [u8; TOKEN_BYTES] = [
    0, 1, 2, 3, 4, 5, 6, 7, 8, 9, 10, 11, 12, 13, 14, 15, 127, 128, 171, 255,
];

const TOKEN: &str = "npm_000102030405060708090a0b0c0d0e0f7f80abff";

// A token is made of bytes, and a line adds its digest.
#[test]
fn tokens_are_made_and_added(rt: HostRuntime) {
    let alloc = rt.alloc();
    let token = token_of(alloc, BYTES).expect(&rt, "memory");
    same(&rt, TOKEN, token.as_str(), TOKEN);
    let digest_of = TokenDigest::of(TOKEN).expect(&rt, "a token");
    let new = NewToken {
        db: text(&rt, alloc, "registry.db"),
        existing: false,
        who: Who::Operator,
        at: None,
        user: text(&rt, alloc, "ann"),
    };
    let line = new.line(alloc, token).expect(&rt, "memory");
    let Ok((_, what)) = action_of(alloc, &line, &[]) else {
        panic!(rt; "the line asks for nothing");
    };
    let Action::TokenAdd { user, digest } = &what else {
        panic!(rt; "the line adds no token");
    };
    same(&rt, TOKEN, user.text(), "ann");
    same(&rt, TOKEN, digest_of == *digest, true);
}

// Checks that this is printed, where the line is answered with this reply.
fn is_printed(rt: &impl Abort, alloc: Global, reply: &Reply, out: &str, err: &str, status: u8) {
    let mut output = Vec::new(alloc);
    let mut errors = Vec::new(alloc);
    let ended = print_token(
        TOKEN,
        reply,
        &mut ToWrite::new(&mut output),
        &mut ToWrite::new(&mut errors),
    );
    same(rt, reply, &ended, &Ok(status));
    same(rt, reply, output.as_slice(), out.as_bytes());
    same(rt, reply, errors.as_slice(), err.as_bytes());
}

#[test]
fn a_token_is_printed_where_it_was_added(rt: HostRuntime) {
    let alloc = rt.alloc();
    let line = "npm_000102030405060708090a0b0c0d0e0f7f80abff\n";
    is_printed(&rt, alloc, &Reply::Created, line, "", 0);
    is_printed(
        &rt,
        alloc,
        &Reply::Refused(Refusal::NotFound),
        "",
        "refused: NotFound\n",
        1,
    );
}
