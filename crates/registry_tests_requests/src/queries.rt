//! Queries that tests ask of whole registries.

/// Queries of each kind that has a subcommand, by several callers: of an organisation `lab` with a
/// team `ops`, and of packages `@lab/kit` and `tool`. They ask for the archive of each version that
/// `registry_tests_stops` publishes. A new query has a line here.
pub const QUERIES: &str = "
--at 200 --as bob packument @lab/kit
--at 200 --as bob abbreviated-packument @lab/kit
token npm_bob_000000001 --at 200 version-doc @lab/kit latest
--at 200 --as bob version-doc @lab/kit 2.0.0-rc.1
--at 200 --as bob archive @lab/kit 1.9.0
--at 200 --as bob archive @lab/kit 1.10.0
--at 200 --as bob archive @lab/kit 2.0.0-beta
--at 200 --as bob archive @lab/kit 2.0.0-rc.1
--at 200 --as bob archive @lab/kit 3.0.0
--at 200 --as eve archive tool 1.0.0
--at 200 --as eve archive tool 1.1.0
token npm_bob_000000001 --at 200 tags @lab/kit
--at 200 --as ann members lab
--at 200 --as ann teams lab
--at 200 --as ann team-members lab developers
--at 200 --as ann team-members lab ops
--at 200 --as ann team-packages lab developers
--at 200 --as ann team-packages lab ops
--at 200 --as eve whoami
--at 200 --as bob maintainers @lab/kit
--at 200 --as bob org-packages lab
--at 200 --as bob my-packages
--at 200 --operator users
--at 200 --operator organisations
--at 200 --operator packages
--at 200 --as eve packument @lab/kit
";
