//! Laws of the routes, in the words of an API page. Each is the contract of a
//! function that does nothing.

ghost use Rattle.registry_routes.specs.Laws.{DashIsNoName, EscapesAreSlashes, OneRowTakes, QueriesChangeNothing};
ghost use Rattle.registry_routes.specs.NpmLaws.{NpmQueriesChangeNothing, OneNpmRowTakes, TablesMeet};

/// What follows the first `?` of a target changes nothing.
pub fn queries_change_nothing()
    ensures { QueriesChangeNothing }
{}

/// At most one row of the table has a method and a path, so the order of its rows doesn't matter.
pub fn one_row_takes()
    ensures { OneRowTakes }
{}

/// A path whose first segment is `-` has no route that begins with the name of a package, and any
/// other path has only such routes.
pub fn dash_is_no_name()
    ensures { DashIsNoName }
{}

/// A name with a scope takes the same route, and is the same name, whether its slash is written as
/// it is or escaped, in either case.
pub fn escapes_are_slashes()
    ensures { EscapesAreSlashes }
{}

/// A target that takes a row of npm's table has no route by the first one, except that a packument, a
/// publish, and roles and members of the names `user`, `team` and `package` have theirs.
pub fn tables_meet()
    ensures { TablesMeet }
{}

/// At most one row of npm's table has a method and a path, so the order of its rows doesn't matter.
pub fn one_npm_row_takes()
    ensures { OneNpmRowTakes }
{}

/// What follows the first `?` of a target changes nothing for npm's table.
pub fn npm_queries_change_nothing()
    ensures { NpmQueriesChangeNothing }
{}
