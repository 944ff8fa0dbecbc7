//! Digests of texts, and texts that keep theirs.

use crate::outcome::same;
use crate::parts::{hex, shared};
use registry_cache::{ContentDigest, Shared};
use std::alloc::Global;
use std::process::Abort;

// Texts; ` => ` and their SHA-256: the examples of FIPS 180-4 of one block and of two, and the empty text,
// whose digest is among the vectors of NIST's validation program.
const DIGESTS: &str = "abc => ba7816bf8f01cfea414140de5dae2223b00361a396177a9cb410ff61f20015ad
abcdbcdecdefdefgefghfghighijhijkijkljklmklmnlmnomnopnopq => 248d6a61d20638b8e5c026930c3e6039a33ce45964ff2167f6ecedd419db06c1
 => e3b0c44298fc1c149afbf4c8996fb92427ae41e4649b934ca495991b7852b855";

fn is_digest(rt: &impl Abort, alloc: Global, digest: ContentDigest, wanted: &str) {
    same(
        rt,
        wanted,
        hex(rt, alloc, digest.as_slice()).as_str(),
        wanted,
    );
}

#[test]
fn a_text_is_the_same_with_its_digest(rt: HostRuntime) {
    let alloc = rt.alloc();
    for line in DIGESTS.lines() {
        let (text, wanted) = line.split_once(" => ").expect(&rt, line);
        is_digest(&rt, alloc, ContentDigest::of(text.as_bytes()), wanted);
        let without = shared(&rt, alloc, text);
        is_digest(&rt, alloc, without.digest(), wanted);
        let with = without.with_digest();
        is_digest(&rt, alloc, with.digest(), wanted);
        same(&rt, text, with.as_str(), text);
        let copy = with.share().expect(&rt, "few owners");
        same(&rt, text, with == copy, true);
        drop(with);
        is_digest(&rt, alloc, copy.digest(), wanted);
    }
}
