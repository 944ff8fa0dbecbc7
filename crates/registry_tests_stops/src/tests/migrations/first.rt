//! A registry of schema 1, as it was left: its archives are in the rows of versions, and it has
//! only the targets of needs.

/// The statements that put its rows, in an order in which each refers to rows that are there.
pub const ROWS: &str = r#"
INSERT INTO meta VALUES ('schema', 1);
INSERT INTO users VALUES ('ann');
INSERT INTO users VALUES ('bob');
INSERT INTO users VALUES ('eve');
INSERT INTO tokens VALUES (x'b6105209b6cda59e36efc1968ba52aa75e0ecd46808fc5c3e9ab982b57a5ad98', 'bob');
INSERT INTO orgs VALUES ('lab');
INSERT INTO members VALUES ('lab', 'ann', 2);
INSERT INTO members VALUES ('lab', 'bob', 0);
INSERT INTO teams VALUES ('lab', 'developers');
INSERT INTO teams VALUES ('lab', 'ops');
INSERT INTO team_members VALUES ('lab', 'developers', 'ann');
INSERT INTO team_members VALUES ('lab', 'developers', 'bob');
INSERT INTO team_members VALUES ('lab', 'ops', 'bob');
INSERT INTO packages VALUES ('@lab/kit', 0);
INSERT INTO packages VALUES ('@lab/pad', 1);
INSERT INTO packages VALUES ('tool', 1);
INSERT INTO grants VALUES ('lab', 'developers', '@lab/kit', 2);
INSERT INTO grants VALUES ('lab', 'developers', '@lab/pad', 2);
INSERT INTO grants VALUES ('lab', 'ops', '@lab/kit', 1);
INSERT INTO owners VALUES ('tool', 'eve');
INSERT INTO versions VALUES ('@lab/kit', '1.0.0', 100, '{"dependencies":{"tool":"^1"},"name":"@lab/kit","optionalDependencies":{"@lab/pad":"~2"},"peerDependencies":{"tool":">=1.0.0"},"version":"1.0.0"}', '', x'616263');
INSERT INTO versions VALUES ('@lab/kit', '1.1.0-beta', 101, '{"dependencies":{"tool":"^2"},"name":"@lab/kit","optionalDependencies":{"tool":"2.x"},"version":"1.1.0-beta"}', 'old', x'616263');
INSERT INTO versions VALUES ('@lab/pad', '2.0.0', 102, '{"dependencies":{},"name":"@lab/pad","version":"2.0.0"}', '', x'616264');
INSERT INTO versions VALUES ('tool', '1.0.0', 103, '{"name":"tool","version":"1.0.0"}', 'use 2', x'616263');
INSERT INTO versions VALUES ('tool', '2.0.0', 104, '{"devDependencies":{"@lab/kit":"1"},"name":"tool","peerDependencies":{"@lab/kit":"^1.1.0-beta"},"version":"2.0.0"}', '', x'');
INSERT INTO spent VALUES ('@lab/kit', '0.9.0', 90, 95);
INSERT INTO spent VALUES ('tool', '0.1.0', 80, 99);
INSERT INTO tags VALUES ('@lab/kit', 'beta', '1.1.0-beta');
INSERT INTO tags VALUES ('@lab/kit', 'latest', '1.0.0');
INSERT INTO tags VALUES ('@lab/pad', 'latest', '2.0.0');
INSERT INTO tags VALUES ('tool', 'latest', '2.0.0');
INSERT INTO tags VALUES ('tool', 'old', '1.0.0');
INSERT INTO needs VALUES ('@lab/kit', '1.0.0', '@lab/pad');
INSERT INTO needs VALUES ('@lab/kit', '1.0.0', 'tool');
INSERT INTO needs VALUES ('@lab/kit', '1.1.0-beta', 'tool');
INSERT INTO needs VALUES ('tool', '2.0.0', '@lab/kit');
INSERT INTO packages VALUES ('gone', 1);
INSERT INTO owners VALUES ('gone', 'bob');
INSERT INTO spent VALUES ('gone', '1.0.0', 10, 11);
"#;

/// What it shows afterwards: each table, with every column of each row.
pub const SHOWN: &str = r#"SELECT * FROM meta ORDER BY name
schema|3
SELECT * FROM users ORDER BY name
ann
bob
eve
SELECT * FROM tokens ORDER BY digest
b6105209b6cda59e36efc1968ba52aa75e0ecd46808fc5c3e9ab982b57a5ad98|bob
SELECT * FROM orgs ORDER BY name
lab
SELECT * FROM members ORDER BY org, user
lab|ann|2
lab|bob|0
SELECT * FROM teams ORDER BY org, team
lab|developers
lab|ops
SELECT * FROM team_members ORDER BY org, team, user
lab|developers|ann
lab|developers|bob
lab|ops|bob
SELECT * FROM packages ORDER BY name
@lab/kit|0
@lab/pad|1
gone|1
tool|1
SELECT * FROM grants ORDER BY org, team, package
lab|developers|@lab/kit|2
lab|developers|@lab/pad|2
lab|ops|@lab/kit|1
SELECT * FROM owners ORDER BY package, user
gone|bob
tool|eve
SELECT * FROM versions ORDER BY package, version
@lab/kit|1.0.0|100|{"dependencies":{"tool":"^1"},"name":"@lab/kit","optionalDependencies":{"@lab/pad":"~2"},"peerDependencies":{"tool":">=1.0.0"},"version":"1.0.0"}||
@lab/kit|1.1.0-beta|101|{"dependencies":{"tool":"^2"},"name":"@lab/kit","optionalDependencies":{"tool":"2.x"},"version":"1.1.0-beta"}|old|
@lab/pad|2.0.0|102|{"dependencies":{},"name":"@lab/pad","version":"2.0.0"}||
tool|1.0.0|103|{"name":"tool","version":"1.0.0"}|use 2|
tool|2.0.0|104|{"devDependencies":{"@lab/kit":"1"},"name":"tool","peerDependencies":{"@lab/kit":"^1.1.0-beta"},"version":"2.0.0"}||
SELECT * FROM spent ORDER BY package, version
@lab/kit|0.9.0|90|95
gone|1.0.0|10|11
tool|0.1.0|80|99
SELECT * FROM tags ORDER BY package, tag
@lab/kit|beta|1.1.0-beta
@lab/kit|latest|1.0.0
@lab/pad|latest|2.0.0
tool|latest|2.0.0
tool|old|1.0.0
SELECT * FROM needs ORDER BY package, version, target
SELECT * FROM need_ranges ORDER BY package, version, target, range
@lab/kit|1.0.0|@lab/pad|~2
@lab/kit|1.0.0|tool|>=1.0.0
@lab/kit|1.0.0|tool|^1
@lab/kit|1.1.0-beta|tool|2.x
@lab/kit|1.1.0-beta|tool|^2
tool|2.0.0|@lab/kit|^1.1.0-beta
SELECT * FROM held ORDER BY package, version
@lab/kit|1.0.0|1
@lab/kit|1.1.0-beta|1
@lab/pad|2.0.0|2
tool|1.0.0|1
tool|2.0.0|3
SELECT * FROM archives ORDER BY id
1|sha512-3a81oZNherrMQXNJriBBMRLm+k6JqX6iCp7u5ktV05ohkpkqJ0/BqDa6PCOj/uu9RU1EI2Q86A4qmslPpUyknw==|616263
2|sha512-GphAwnpc8i2rBgzdioPaKw+8sa61LU+dOJS2OQg+IFpas/avrushuOmbXg/pPar6q+7ydNpdbq3MnbNuW29kxA==|616264
3|sha512-z4PhNX7vuL3xVChQ1m2AB9Yg5AULVxXcg/SpIdNs6c5H0NE8XYXysP+DGNKHfuwvY7kxvUdBeoGlODJ6+SfaPg==|
SELECT * FROM sqlite_sequence ORDER BY name
archives|3
"#;
