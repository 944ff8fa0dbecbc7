//! A registry of schema 2, as it was left: each archive is stored once, and it has only the targets
//! of needs.

/// The statements that put its rows, in an order in which each refers to rows that are there. The
/// archive with the number 2 went with the version that had it. One need isn't in its version's
/// manifest.
pub const ROWS: &str = r#"
INSERT INTO meta VALUES ('schema', 2);
INSERT INTO users VALUES ('ann');
INSERT INTO users VALUES ('bob');
INSERT INTO users VALUES ('eve');
INSERT INTO tokens VALUES (x'b6105209b6cda59e36efc1968ba52aa75e0ecd46808fc5c3e9ab982b57a5ad98', 'bob');
INSERT INTO orgs VALUES ('lab');
INSERT INTO members VALUES ('lab', 'ann', 2);
INSERT INTO members VALUES ('lab', 'bob', 0);
INSERT INTO teams VALUES ('lab', 'developers');
INSERT INTO team_members VALUES ('lab', 'developers', 'ann');
INSERT INTO team_members VALUES ('lab', 'developers', 'bob');
INSERT INTO packages VALUES ('@lab/kit', 0);
INSERT INTO packages VALUES ('tool', 1);
INSERT INTO grants VALUES ('lab', 'developers', '@lab/kit', 2);
INSERT INTO owners VALUES ('tool', 'eve');
INSERT INTO versions VALUES ('@lab/kit', '1.0.0', 100, '{"dependencies":{"tool":"^1"},"name":"@lab/kit","version":"1.0.0"}', 'old', x'');
INSERT INTO versions VALUES ('tool', '1.0.0', 103, '{"name":"tool","version":"1.0.0"}', '', x'');
INSERT INTO versions VALUES ('tool', '1.1.0', 104, '{"name":"tool","peerDependencies":{"@lab/kit":"^2"},"version":"1.1.0"}', '', x'');
INSERT INTO spent VALUES ('@lab/kit', '0.9.0', 90, 95);
INSERT INTO tags VALUES ('@lab/kit', 'latest', '1.0.0');
INSERT INTO tags VALUES ('tool', 'latest', '1.0.0');
INSERT INTO needs VALUES ('@lab/kit', '1.0.0', 'tool');
INSERT INTO needs VALUES ('tool', '1.1.0', '@lab/kit');
INSERT INTO needs VALUES ('tool', '1.1.0', 'gone');
INSERT INTO archives (integrity, bytes) VALUES ('sha512-3a81oZNherrMQXNJriBBMRLm+k6JqX6iCp7u5ktV05ohkpkqJ0/BqDa6PCOj/uu9RU1EI2Q86A4qmslPpUyknw==', x'616263');
INSERT INTO archives (integrity, bytes) VALUES ('none', x'00');
INSERT INTO archives (integrity, bytes) VALUES ('sha512-z4PhNX7vuL3xVChQ1m2AB9Yg5AULVxXcg/SpIdNs6c5H0NE8XYXysP+DGNKHfuwvY7kxvUdBeoGlODJ6+SfaPg==', x'');
DELETE FROM archives WHERE id = 2;
INSERT INTO held VALUES ('@lab/kit', '1.0.0', 1);
INSERT INTO held VALUES ('tool', '1.0.0', 1);
INSERT INTO held VALUES ('tool', '1.1.0', 3);
INSERT INTO packages VALUES ('gone', 1);
INSERT INTO owners VALUES ('gone', 'bob');
INSERT INTO spent VALUES ('gone', '1.0.0', 10, 11);
INSERT INTO tags VALUES ('tool', 'new', '1.1.0');
"#;

/// What it shows afterwards: each table, with every column of each row.
pub const SHOWN: &str = r#"SELECT * FROM meta ORDER BY name
schema|3
SELECT * FROM users ORDER BY name
ann
bob
eve
SELECT * FROM tokens ORDER BY digest
b6105209b6cda59e36efc1968ba52aa75e0ecd46808fc5c3e9ab982b57a5ad98|bob
SELECT * FROM orgs ORDER BY name
lab
SELECT * FROM members ORDER BY org, user
lab|ann|2
lab|bob|0
SELECT * FROM teams ORDER BY org, team
lab|developers
SELECT * FROM team_members ORDER BY org, team, user
lab|developers|ann
lab|developers|bob
SELECT * FROM packages ORDER BY name
@lab/kit|0
gone|1
tool|1
SELECT * FROM grants ORDER BY org, team, package
lab|developers|@lab/kit|2
SELECT * FROM owners ORDER BY package, user
gone|bob
tool|eve
SELECT * FROM versions ORDER BY package, version
@lab/kit|1.0.0|100|{"dependencies":{"tool":"^1"},"name":"@lab/kit","version":"1.0.0"}|old|
tool|1.0.0|103|{"name":"tool","version":"1.0.0"}||
tool|1.1.0|104|{"name":"tool","peerDependencies":{"@lab/kit":"^2"},"version":"1.1.0"}||
SELECT * FROM spent ORDER BY package, version
@lab/kit|0.9.0|90|95
gone|1.0.0|10|11
SELECT * FROM tags ORDER BY package, tag
@lab/kit|latest|1.0.0
tool|latest|1.0.0
tool|new|1.1.0
SELECT * FROM needs ORDER BY package, version, target
SELECT * FROM need_ranges ORDER BY package, version, target, range
@lab/kit|1.0.0|tool|^1
tool|1.1.0|@lab/kit|^2
SELECT * FROM held ORDER BY package, version
@lab/kit|1.0.0|1
tool|1.0.0|1
tool|1.1.0|3
SELECT * FROM archives ORDER BY id
1|sha512-3a81oZNherrMQXNJriBBMRLm+k6JqX6iCp7u5ktV05ohkpkqJ0/BqDa6PCOj/uu9RU1EI2Q86A4qmslPpUyknw==|616263
3|sha512-z4PhNX7vuL3xVChQ1m2AB9Yg5AULVxXcg/SpIdNs6c5H0NE8XYXysP+DGNKHfuwvY7kxvUdBeoGlODJ6+SfaPg==|
SELECT * FROM sqlite_sequence ORDER BY name
archives|3
"#;
