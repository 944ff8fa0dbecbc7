//! Calls on an empty database, with enough memory. No contract says that a call ever succeeds: here
//! each call does, and shows what the calls before it put.
//!
//! A case is some lines, of which the first says what it shows. Each other line is a call, with its
//! arguments and then an arrow and what is answered, if anything is. At the end may stand:
//!
//! - `then fault` and a line: this call is a fault of the database;
//! - `then rows` and the tables of all rows that are there, for a need its target and range;
//! - `then walks`, and lines of a package and what a walk over its versions gives.

mod answers;
mod asked;
mod call;
mod changes;
mod text;
mod walks;

use call::all_come_out;
use walks::all_give;

#[test]
fn packages_stand_as_they_were_put(rt: HostRuntime) {
    all_come_out(&rt, rt.alloc(), PACKAGES);
}

#[test]
fn teams_and_tokens_stand_as_they_were_put(rt: HostRuntime) {
    all_come_out(&rt, rt.alloc(), PEOPLE);
}

#[test]
fn rights_stand_as_they_were_put(rt: HostRuntime) {
    all_come_out(&rt, rt.alloc(), RIGHTS);
}

#[test]
fn walks_give_the_live_versions(rt: HostRuntime) {
    all_give(&rt, rt.alloc(), WALKS);
}

/// Versions, their manifests and their archives, statuses, tags, and the rows that calls put.
const PACKAGES: &str = r#"
versions stand in byte order
times kit ->
status kit public
times kit ->
add kit 1.9.0 1
publish kit 2.0.0-beta 2
add kit 1.10.0 3
add kit 1.0.0 1
retire kit 1.0.0 1 2
times kit -> 1.10.0=3 1.9.0=1 2.0.0-beta=2
times kid ->
has-live kit -> true
has-live kid -> false
has-version kit 1.9.0 -> true
has-version kit 1.9.1 -> false
has-version kid 1.9.0 -> false

archives come back
status kit public
add kit 1.0.0 0 1
add kit 2.0.0 0 0
publish kit 3.0.0 0 349526
archive kit 1.0.0 -> 3=abc
archive kit 2.0.0 -> 0=
archive kit 3.0.0 -> 1048578=abc
archive kit 4.0.0 -> none
archive kid 1.0.0 -> none

a live version isn't put again
status kit public
publish kit 1.0.0 1
then fault publish kit 1.0.0 2 2

nor is it as a change
status kit public
add kit 1.0.0 1
then fault add kit 1.0.0 1

a withdrawn version isn't put again
status kit public
add kit 1.0.0 1
retire kit 1.0.0 1 2
is-spent kit 1.0.0 -> true
is-spent kit 1.0.1 -> false
is-spent kid 1.0.0 -> false
has-version kit 1.0.0 -> false
publish kit 1.0.1 1
then fault publish kit 1.0.0 1

a version needs the status of its package
status kid public
status-of kit -> none
then fault publish kit 1.0.0 1

a status is put over another
status-of kit -> none
status kit restricted
status @lab/pad restricted
status-of kit -> restricted
status kit public
status-of kit -> public
status-of @lab/pad -> restricted

a status of a number that is none is a fault
number kit 1
status-of kit -> public
number kid 7
then fault status-of kid

tags are put and dropped
status kit public
add kit 1.0.0 1
add kit 2.0.0 2
tags kit ->
tag kit 1.0.0 latest
tag kit 2.0.0 beta
tags kit -> beta=2.0.0 latest=1.0.0
tag kit 2.0.0 latest
tags kit -> beta=2.0.0 latest=2.0.0
has-tag kit beta -> true
has-tag kid beta -> false
drop-tag kit beta
has-tag kit beta -> false
tags kit -> latest=2.0.0
drop-tag kit beta
tag kit 1.0.0 beta
tags kit -> beta=1.0.0 latest=2.0.0

packages stand apart
status kit public
status @lab/pad restricted
add kit 1.0.0 1
add @lab/pad 1.0.0 2
add @lab/pad 2.0.0 2
tag kit 1.0.0 latest
tag @lab/pad 1.0.0 latest
tag @lab/pad 2.0.0 latest
tags kit -> latest=1.0.0
tags @lab/pad -> latest=2.0.0
drop-tag kit latest
tags kit ->
tags @lab/pad -> latest=2.0.0

a tag needs its version
status kit public
add kit 1.0.0 1
tag kit 1.0.0 latest
then fault tag kit 1.0.1 latest

each call puts its rows
status kit public
status @lab/pad restricted
publish kit 1.0.0 1
add kit 1.1.0 2
publish @lab/pad 1.0.0 3
tag kit 1.1.0 latest
tag @lab/pad 1.0.0 latest
then rows archives held held held meta packages packages tags tags versions versions versions

an archive is stored once, and others beside it
status kit public
status kid public
publish kit 1.0.0 1 1
publish kit 1.1.0 2 1
add kid 1.0.0 3 1
publish kit 1.2.0 4 2
add kid 1.1.0 5 2
archive kit 1.0.0 -> 3=abc
archive kit 1.1.0 -> 3=abc
archive kid 1.0.0 -> 3=abc
archive kit 1.2.0 -> 6=abc
archive kid 1.1.0 -> 6=abc
then rows archives archives held held held held held meta packages packages versions versions versions versions versions

a need that two members name is put once
status kit public
publish kit 1.0.0 0 1 ,"dependencies":{"kid":"~2","pad":"^1"},"devDependencies":{"pod":"3"},"optionalDependencies":{"pad":"^1"},"peerDependencies":{"kid":"2.1"}
then rows archives held kid 2.1 kid ~2 meta packages pad ^1 versions
"#;

/// Who is in the teams of organisations, what that grants, tokens, and numbers in the tables.
const PEOPLE: &str = r#"
lists of users and of teams stand in byte order
user ann
user bob
organisation lab
organisation labs
member lab ann
member lab bob
member labs ann
team lab devs
team lab docs
team lab all
team labs devs
team-users lab devs ->
team-member lab devs bob
team-member lab devs ann
team-member lab docs ann
team-member lab all ann
team-member labs devs ann
team-users lab devs -> ann bob
team-users lab docs -> ann
team-users labs docs ->
team-users labs devs -> ann

what a user's teams are granted is his
user ann
user bob
organisation lab
organisation labs
member lab ann
member lab bob
member labs ann
team lab devs
team lab docs
team lab all
team labs devs
status @lab/kit restricted
status @lab/pad restricted
team-member lab devs ann
team-member lab docs ann
team-member lab docs bob
grants @lab/kit lab ann ->
in-scope -> true
level @lab/kit lab devs 2
grants @lab/kit lab ann -> read-write
grants @lab/kit lab bob ->
grants @lab/kit labs ann ->
grants @lab/pad lab ann ->
level @lab/kit lab docs 1
grants @lab/kit lab ann -> read-write read-only
grants @lab/kit lab bob -> read-only
level @lab/kit lab all 2
grants @lab/kit lab bob -> read-only
in-scope -> true
level @lab/pad labs devs 1
in-scope -> false

a grant of a number that is none is a fault
user ann
user bob
organisation lab
organisation labs
member lab ann
member lab bob
member labs ann
team lab devs
team lab docs
team lab all
team labs devs
status @lab/kit public
team-member lab devs ann
level @lab/kit lab devs 0
then fault grants @lab/kit lab ann

a user's tokens stand in byte order, and each is dropped alone
user ann
user anna
user bob
tokens ann ->
token 128 ann
token 2 anna
token 127 ann
token 255 ann
token 1 ann
tokens ann -> 1 127 128 255
tokens anna -> 2
tokens bob ->
token-user 127 -> ann
drop-token 127
token-user 127 -> none
tokens ann -> 1 128 255
token-user 2 -> anna
drop-token 127
tokens ann -> 1 128 255
token 127 bob
token-user 127 -> bob
tokens bob -> 127
then rows meta tokens tokens tokens tokens tokens users users users

a token isn't put where there is one
user ann
user bob
token 1 ann
then fault token 1 bob

bytes that are no digest aren't listed
user ann
user bob
token 1 bob
short-token 1 ann
tokens bob -> 1
then fault tokens ann

the numbers that calls write are in range
in-range -> true
status kit public
status pad restricted
add kit 1.0.0 253402300799
add kit 1.1.0 1
retire kit 1.1.0 1 2
user ann
organisation lab
member lab ann
team lab core
level kit lab core 2
in-range -> true

a status of a number that is none is found
number kit 1
in-range -> true
number kid -1
in-range -> false

a grant of a number that is none is found
status @lab/kit restricted
organisation lab
team lab core
level @lab/kit lab core 0
in-range -> false
"#;

/// What callers may do with packages.
const RIGHTS: &str = r#"
a standing says what a user may do
user ann
user bob
user eve
organisation lab
member lab ann
team lab devs
team-member lab devs ann
standing @lab/kit ann -> true developer none false
status @lab/kit restricted
has-grant @lab/kit lab devs -> false
grant @lab/kit lab devs read-only
has-grant @lab/kit lab devs -> true
has-grant @lab/kit lab docs -> false
has-grant @lab/kit labs devs -> false
has-grant @lab/pad lab devs -> false
standing @lab/kit ann -> true developer restricted false read-only
grant @lab/kit lab devs read-write
standing @lab/kit ann -> true developer restricted false read-write
standing @lab/kit bob -> true none restricted false
standing @lab/kit NOBODY -> true none restricted false
standing kit ann -> false none none false
standing @labs/kit ann -> false none none false
drop-grant @lab/kit lab devs
has-grant @lab/kit lab devs -> false
standing @lab/kit ann -> true developer restricted false

maintainers come and go
user ann
user bob
status @lab/kit public
has-other-maintainer @lab/kit ann -> false
is-maintainer @lab/kit bob -> false
maintainer @lab/kit bob
is-maintainer @lab/kit bob -> true
is-maintainer @lab/kit ann -> false
is-maintainer @lab/pad bob -> false
standing @lab/kit bob -> false none public true
standing @lab/kit ann -> false none public false
has-other-maintainer @lab/kit ann -> true
has-other-maintainer @lab/kit bob -> false
maintainer @lab/kit ann
has-other-maintainer @lab/kit bob -> true
drop-maintainer @lab/kit bob
is-maintainer @lab/kit bob -> false
standing @lab/kit bob -> false none public false
has-other-maintainer @lab/kit ann -> false

the packages of a team are those that the user reads
user ann
user bob
organisation lab
member lab ann
team lab devs
team-member lab devs ann
status @lab/kit restricted
status @lab/pad public
status @lab/ant restricted
team-packages lab devs ann ->
grant @lab/kit lab devs read-write
grant @lab/pad lab devs read-only
grant @lab/ant lab devs read-only
team-packages lab devs ann -> @lab/ant=read-only @lab/kit=read-write @lab/pad=read-only
team-packages lab devs bob -> @lab/pad=read-only
maintainer @lab/kit bob
team-packages lab devs bob -> @lab/kit=read-write @lab/pad=read-only
team-packages lab docs ann ->
then rows grants grants grants members meta orgs owners packages packages packages team_members teams users users

a grant is a team's
organisation lab
status @lab/kit restricted
then fault grant @lab/kit lab devs read-only
"#;

/// Walks over versions.
const WALKS: &str = r#"
a walk gives the live versions in byte order, and so does the next one
status kit public
add kit 1.9.0 1
add kit 2.0.0-beta 2
add kit 1.10.0 3
deprecate kit 1.9.0 old
times kit -> 1.10.0=3 1.9.0=1 2.0.0-beta=2
times kid ->
then walks
kit -> 1.10.0 {"name":"kit","version":"1.10.0"} [] 1.9.0 {"name":"kit","version":"1.9.0"} [old] 2.0.0-beta {"name":"kit","version":"2.0.0-beta"} []
kid ->
kit -> 1.10.0 {"name":"kit","version":"1.10.0"} [] 1.9.0 {"name":"kit","version":"1.9.0"} [old] 2.0.0-beta {"name":"kit","version":"2.0.0-beta"} []

a walk gives no version that was withdrawn
status kit public
add kit 1.0.0 1
add kit 1.1.0 1
retire kit 1.0.0 1 2
times kit -> 1.1.0=1
then walks
kit -> 1.1.0 {"name":"kit","version":"1.1.0"} []
"#;
