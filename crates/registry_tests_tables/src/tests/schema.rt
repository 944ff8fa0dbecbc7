//! The tables as they are created.

/// Cases, as `rows` has them.
pub const SCHEMA: &str = "
a new database says which schema it has
schema of tables -> none
create tables -> done
schema of tables -> 3

another number is answered, too
write CREATE TABLE meta (name TEXT, value INTEGER) -> done
write INSERT INTO meta VALUES ('schema', 7) -> done
schema of tables -> 7

a number that is no number of a schema is a fault
create tables -> done
write UPDATE meta SET value = -1 -> done
schema of tables -> Database

tables without a number are a fault
create tables -> done
write DELETE FROM meta -> done
schema of tables -> Database

one of the tables alone is a fault
write CREATE TABLE users (name TEXT NOT NULL, PRIMARY KEY (name)) STRICT -> done
schema of tables -> Database

a table of another is a fault
write CREATE TABLE notes (text TEXT) -> done
schema of tables -> Database

a view alone is a fault
write CREATE VIEW notes AS SELECT 1 -> done
schema of tables -> Database

a database whose tables are gone has none
write CREATE TABLE notes (text TEXT) -> done
write DROP TABLE notes -> done
schema of tables -> none

tables are made once
create tables -> done
create tables -> Database

tables aren't made where the first is there
write CREATE TABLE users (name TEXT) -> done
create tables -> Database

tables aren't made where one between is there
write CREATE TABLE packages (name TEXT) -> done
create tables -> Database

tables aren't made where the last is there
write CREATE TABLE need_ranges (name TEXT) -> done
create tables -> Database

the tables are empty, and only meta has a row
create tables -> done
read SELECT name FROM sqlite_schema WHERE type = 'table' -> 18
read SELECT name FROM sqlite_schema WHERE type = 'index' AND tbl_name = 'archives' -> 1
read SELECT name FROM sqlite_schema WHERE type = 'index' AND tbl_name = 'need_ranges' -> 2
read SELECT name FROM sqlite_schema WHERE type = 'index' AND tbl_name = 'held' -> 2
read SELECT name FROM sqlite_schema WHERE type = 'index' AND tbl_name = 'owners' -> 2
read SELECT name FROM users UNION ALL SELECT user FROM tokens UNION ALL SELECT name FROM orgs UNION ALL SELECT org FROM members UNION ALL SELECT org FROM teams UNION ALL SELECT org FROM team_members UNION ALL SELECT name FROM packages UNION ALL SELECT org FROM grants UNION ALL SELECT package FROM owners UNION ALL SELECT package FROM versions UNION ALL SELECT package FROM spent UNION ALL SELECT package FROM tags UNION ALL SELECT package FROM needs UNION ALL SELECT name FROM meta UNION ALL SELECT package FROM need_ranges UNION ALL SELECT package FROM held UNION ALL SELECT integrity FROM archives -> 1

a version needs its package
create tables -> done
break INSERT INTO versions VALUES ('kit', '1.0.0', 0, '{}', '', x'00')

a member who leaves is in no team
create tables -> done
write INSERT INTO users VALUES ('ann'), ('bob') -> done
write INSERT INTO orgs VALUES ('lab') -> done
write INSERT INTO members VALUES ('lab', 'ann', 2), ('lab', 'bob', 0) -> done
write INSERT INTO teams VALUES ('lab', 'devs'), ('lab', 'docs') -> done
write INSERT INTO team_members VALUES ('lab', 'devs', 'ann'), ('lab', 'devs', 'bob'), ('lab', 'docs', 'ann') -> done
write DELETE FROM members WHERE org = 'lab' AND user = 'ann' -> done
read SELECT user FROM team_members -> 1
read SELECT team FROM teams -> 2

a team goes with its members and grants
create tables -> done
write INSERT INTO users VALUES ('ann'), ('bob') -> done
write INSERT INTO orgs VALUES ('lab') -> done
write INSERT INTO members VALUES ('lab', 'ann', 2), ('lab', 'bob', 0) -> done
write INSERT INTO teams VALUES ('lab', 'devs'), ('lab', 'docs') -> done
write INSERT INTO team_members VALUES ('lab', 'devs', 'ann'), ('lab', 'devs', 'bob'), ('lab', 'docs', 'ann') -> done
write INSERT INTO packages VALUES ('@lab/kit', 0) -> done
write INSERT INTO grants VALUES ('lab', 'devs', '@lab/kit', 2), ('lab', 'docs', '@lab/kit', 1) -> done
write DELETE FROM teams WHERE org = 'lab' AND team = 'devs' -> done
read SELECT user FROM team_members -> 1
read SELECT team FROM grants -> 1
read SELECT user FROM members -> 2

a need goes with its version
create tables -> done
write INSERT INTO packages VALUES ('kit', 1) -> done
write INSERT INTO versions VALUES ('kit', '1.0.0', 0, '{}', '', x'00') -> done
write INSERT INTO need_ranges VALUES ('kit', '1.0.0', 'left', '^1.0.0') -> done
read SELECT range FROM need_ranges WHERE target = 'left' -> 1
write DELETE FROM versions -> done
read SELECT range FROM need_ranges WHERE target = 'left' -> 0

what a version has goes with it, and the archive stays
create tables -> done
write INSERT INTO packages VALUES ('kit', 1) -> done
write INSERT INTO versions VALUES ('kit', '1.0.0', 0, '{}', '', x'') -> done
write INSERT INTO archives (integrity, bytes) VALUES ('sha512-x', x'00') -> done
write INSERT INTO held VALUES ('kit', '1.0.0', 1) -> done
write DELETE FROM versions -> done
read SELECT archive FROM held -> 0
read SELECT id FROM archives -> 1

an archive that a version has is there
create tables -> done
write INSERT INTO packages VALUES ('kit', 1) -> done
write INSERT INTO versions VALUES ('kit', '1.0.0', 0, '{}', '', x'') -> done
break INSERT INTO held VALUES ('kit', '1.0.0', 1)

a number of an archive is never given again
create tables -> done
write INSERT INTO archives (integrity, bytes) VALUES ('sha512-x', x'00') -> done
write DELETE FROM archives -> done
write INSERT INTO archives (integrity, bytes) VALUES ('sha512-x', x'00') -> done
read SELECT id FROM archives WHERE id = 2 -> 1
";
