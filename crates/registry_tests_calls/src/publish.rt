//! The integrity of bytes, the needs of manifests and the digest of a token.

use crate::outcome::same;
use crate::parts::hex;
use registry_names::Stop;
use registry_publish::{Need, TokenDigest, integrity_of, needs_of};
use std::alloc::Global;
use std::process::Abort;

// Bytes; ` => ` and their integrity.
const INTEGRITIES: &str =
    " => sha512-z4PhNX7vuL3xVChQ1m2AB9Yg5AULVxXcg/SpIdNs6c5H0NE8XYXysP+DGNKHfuwvY7kxvUdBeoGlODJ6+SfaPg==
abc => sha512-3a81oZNherrMQXNJriBBMRLm+k6JqX6iCp7u5ktV05ohkpkqJ0/BqDa6PCOj/uu9RU1EI2Q86A4qmslPpUyknw==";

#[test]
fn integrities_of_bytes(rt: HostRuntime) {
    for line in INTEGRITIES.lines() {
        let (bytes, wanted) = line.split_once(" => ").expect(&rt, line);
        let integrity = integrity_of(rt.alloc(), bytes.as_bytes()).expect(&rt, "memory");
        same(&rt, bytes, integrity.as_str(), wanted);
    }
}

// A manifest; ` => ` and its needs in their order, each a target and a range, or why it is refused.
const MANIFESTS: &str =
    r#"{"x":1.5,"peerDependencies":{"b":"2"},"dependencies":{"c":"","a":"file:../a","c":"1"}} => a file:../a, c 1, b 2, 
{"dependencies":{},"devDependencies":{"d":"*"},"bundleDependencies":null} => 
{"peerDependencies":{"b":"4","B":"5"},"optionalDependencies":{"a":"3"},"dependencies":{"d":"1","c":"2"},"devDependencies":{"e":"*"}} => c 2, d 1, a 3, B 5, b 4, 
{} => 
 => BadBody
null => BadBody
1 => BadBody
"a" => BadBody
[{}] => BadBody
{}} => BadBody
[] => BadBody
{"dependencies":null} => BadBody
{"optionalDependencies":["a"]} => BadBody
{"peerDependencies":{"a":1}} => BadBody"#;

// A text of needs, or of why there are none.
fn told(rt: &impl Abort, alloc: Global, needs: &Result<Vec<Need>, Stop>) -> String {
    let mut told = String::new(alloc);
    match needs {
        Ok(needs) => {
            for need in needs {
                let (target, range) = (need.target.as_str(), need.range.as_str());
                let one = format!(in alloc; "{target} {range}, ").expect(rt, "memory");
                told.push_str(one.as_str()).expect(rt, "memory");
            }
        }
        Err(stop) => told.push_str(stop.text()).expect(rt, "memory"),
    }
    told
}

#[test]
fn needs_of_manifests(rt: HostRuntime) {
    for line in MANIFESTS.lines() {
        let (manifest, wanted) = line.split_once(" => ").expect(&rt, line);
        let needs = needs_of(rt.alloc(), manifest);
        same(&rt, line, told(&rt, rt.alloc(), &needs).as_str(), wanted);
    }
}

const TOKEN: &str = "npm_bob_000000001";

const DIGEST: &str = "b6105209b6cda59e36efc1968ba52aa75e0ecd46808fc5c3e9ab982b57a5ad98";

fn is_digest(rt: &impl Abort, alloc: Global, digest: Option<TokenDigest>) {
    let digest = digest.expect(rt, "a digest");
    same(
        rt,
        TOKEN,
        hex(rt, alloc, digest.as_slice()).as_str(),
        DIGEST,
    );
}

#[test]
fn the_digest_of_a_token(rt: HostRuntime) {
    let digest = TokenDigest::of(TOKEN).expect(&rt, "a token");
    let again = TokenDigest::from_slice(digest.as_slice());
    let none = TokenDigest::from_slice(&[0u8; 31]).is_none();
    same(&rt, "31 bytes", none, true);
    let none = TokenDigest::from_slice(&[0u8; 33]).is_none();
    same(&rt, "33 bytes", none, true);
    is_digest(&rt, rt.alloc(), Some(digest));
    is_digest(&rt, rt.alloc(), again);
    is_digest(&rt, rt.alloc(), TokenDigest::of_bytes(TOKEN.as_bytes()));
    let none = TokenDigest::of_bytes(b"npm_bob_000000001\xff").is_none();
    same(&rt, "bytes of no text", none, true);
}
