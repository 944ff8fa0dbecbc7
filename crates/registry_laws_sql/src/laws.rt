//! Laws of statements, over any schema and any store. Each function does nothing: what it ensures
//! holds of the definitions themselves, and its proof is the law's.

ghost use Rattle.registry_laws_sql.specs.CascadeLaws.{DeleteCascades};
ghost use Rattle.registry_laws_sql.specs.JoinLaws.{SelectJoins};
ghost use Rattle.registry_laws_sql.specs.Laws.{OfEachTextTable};
ghost use Rattle.registry_laws_sql.specs.PartLaws.{DeleteErasesPart, SelectShowsPart};

use sqlite::Alter;

/// A statement by some texts of the key, at whatever places, erases or shows exactly the entries
/// whose keys have them. One by the whole key erases what is there, and with it exactly what
/// refers to it, in each table whose foreign key says so.
pub fn deletes_take_parts<S: Alter, C, X>()
    ensures part { OfEachTextTable C X (DeleteErasesPart S.Store) }
    ensures cascade { OfEachTextTable C X (DeleteCascades S.Store) }
{}

/// A query by some texts of the key shows exactly the entries whose keys have them, in the order
/// of the keys. A query on two tables shows exactly what each two entries whose keys join give.
pub fn queries_show_parts<S: Alter, C, X, Z, Y>()
    ensures part { OfEachTextTable C X (SelectShowsPart S.Store Y) }
    ensures join { SelectJoins S.Store C X Z Y }
{}
