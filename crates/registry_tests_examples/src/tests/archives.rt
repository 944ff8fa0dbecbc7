//! How many archives are stored.

use crate::outcome::same;
use crate::tests::asking::{are_done, push, requests};
use crate::tests::both_ways::ran;
use crate::tests::lists::LAB_KIT;

/// What is asked after `@lab/kit` 1.0.0 is published, and how many archives are stored then. The
/// second version has the same archive: both share it, one version is left, and none is.
static STORED: [(&str, usize); 3] = [
    ("--at 101 --as bob publish @lab/kit 1.1.0", 1),
    (
        "--at 101 --as bob publish @lab/kit 1.1.0\n--at 102 --as bob withdraw @lab/kit 1.0.0",
        1,
    ),
    (
        "--at 101 --as bob publish @lab/kit 1.1.0\n--at 102 --as bob withdraw @lab/kit 1.0.0\n--at 102 --as bob withdraw @lab/kit 1.1.0",
        0,
    ),
];

#[test]
fn archives_are_stored_once(rt: HostRuntime) {
    for (text, stored) in &STORED {
        let mut requests = requests(&rt, rt.alloc(), LAB_KIT);
        push(&rt, rt.alloc(), &mut requests, text);
        let (outcomes, rows) = ran(&rt, rt.alloc(), &requests, "SELECT id FROM archives");
        same(&rt, *text, (are_done(&outcomes), rows), (true, *stored));
    }
}
