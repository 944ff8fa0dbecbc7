//! Laws of statements, over any schema and any store. Each function does nothing: what it ensures
//! holds of the definitions themselves, and its proof is the law's.

ghost use Rattle.registry_rows.specs.Laws.{OfEachTable, OfEachBytesTable, OfEachNumberedTable, OfEachPairTable, OfEachTripleTable};
ghost use Rattle.registry_rows.specs.CreateLaws.{CreateAddsEmpty, CreateAddsCounter, CreateKeepsRows, CreateCounterKeepsRows, IndexKeepsEmpty, IndexKeepsRows};
ghost use Rattle.registry_rows.specs.WriteLaws.{OneRowEach, RowsTellMap, InsertPuts, InsertMeetsNone, DeleteErases, UpdateRevises, UpdatePuts, UpsertPuts};
ghost use Rattle.registry_rows.specs.QueryLaws.{SelectFinds, SelectHas, SelectListsAll, SelectLists, SelectListsFirst, SelectListsTwo};
ghost use Rattle.registry_rows.specs.Counting.{InsertNumbers, NextIsNew, NextIsAfter};

use sqlite::Alter;

/// A new table is empty, and leaves the rows of the others, and so all that they give. The first
/// that counts makes the table that counts beside it. An index leaves the rows of every table.
pub fn creations_add_empty_tables<S: Alter, C>()
    ensures create { CreateAddsEmpty S.Store }
    ensures counter { CreateAddsCounter S.Store }
    ensures index { IndexKeepsEmpty S.Store }
    ensures create_rows { CreateKeepsRows S.Store C }
    ensures counter_rows { CreateCounterKeepsRows S.Store C }
    ensures index_rows { IndexKeepsRows S.Store C }
{}

/// The map that a ready table's rows give has at each key what the row of that key says, and no two
/// rows have the same key.
pub fn rows_give_maps<S: Alter, C, X>()
    ensures once { OfEachTable C X (OneRowEach S.Store) }
    ensures tell { OfEachTable C X (RowsTellMap S.Store) }
{}

/// A statement that writes by key makes one operation of its table's map, leaves the other tables
/// as they are, and keeps all of them ready.
pub fn writes_change_maps<S: Alter, C, X>()
    ensures insert { OfEachTable C X (InsertPuts S.Store) }
    ensures insert_new { OfEachTable C X (InsertMeetsNone S.Store) }
    ensures delete { OfEachTable C X (DeleteErases S.Store) }
    ensures update { OfEachTable C X (UpdateRevises S.Store) }
    ensures update_known { OfEachTable C X (UpdatePuts S.Store) }
    ensures upsert { OfEachTable C X (UpsertPuts S.Store) }
{}

/// A query by key, by a column or in the order of the key shows exactly what its table's map has,
/// or as many of its first entries as it asks for, and changes nothing.
pub fn queries_show_maps<S: Alter, C, X, Y>()
    ensures find { OfEachTable C X (SelectFinds S.Store Y) }
    ensures has { OfEachTable C X (SelectHas S.Store Y) }
    ensures all { OfEachTable C X (SelectListsAll S.Store Y) }
    ensures list { OfEachPairTable C X (SelectLists S.Store Y) }
    ensures list_first { OfEachPairTable C X (SelectListsFirst S.Store Y) }
    ensures list_two { OfEachTripleTable C X (SelectListsTwo S.Store Y) }
{}

/// The same of a table whose key is bytes.
pub fn bytes_are_keys<S: Alter, C, X, Y>()
    ensures once { OfEachBytesTable C X (OneRowEach S.Store) }
    ensures tell { OfEachBytesTable C X (RowsTellMap S.Store) }
    ensures insert { OfEachBytesTable C X (InsertPuts S.Store) }
    ensures insert_new { OfEachBytesTable C X (InsertMeetsNone S.Store) }
    ensures delete { OfEachBytesTable C X (DeleteErases S.Store) }
    ensures find { OfEachBytesTable C X (SelectFinds S.Store Y) }
    ensures has { OfEachBytesTable C X (SelectHas S.Store Y) }
    ensures all { OfEachBytesTable C X (SelectListsAll S.Store Y) }
{}

/// The same of a table whose key is the rowid. Such a table has no index of its own, so the place
/// of a table and that of its index may differ.
pub fn numbers_are_keys<S: Alter, C, X, Y>()
    ensures once { OfEachNumberedTable C X (OneRowEach S.Store) }
    ensures tell { OfEachNumberedTable C X (RowsTellMap S.Store) }
    ensures delete { OfEachNumberedTable C X (DeleteErases S.Store) }
    ensures find { OfEachNumberedTable C X (SelectFinds S.Store Y) }
    ensures has { OfEachNumberedTable C X (SelectHas S.Store Y) }
    ensures all { OfEachNumberedTable C X (SelectListsAll S.Store Y) }
{}

/// AUTOINCREMENT: INSERT puts a row under the next number, counts that and answers it. Every other
/// row of `sqlite_sequence` stays as it is. The next number is above the count and above each that
/// a row has, so none is given twice, even where rows were deleted since.
pub fn numbers_are_counted<S: Alter, C, X>()
    ensures insert { InsertNumbers S.Store C X }
    ensures new { NextIsNew X }
    ensures after { NextIsAfter X }
{}
