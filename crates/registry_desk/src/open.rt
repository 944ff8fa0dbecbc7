//! A registry in a file.

ghost use Rattle.std.specs.Prelude.{◌≡◌, ◌↔◌, codes, false, true, Err, IfErr, IfOk, IfSome, IsErrAnd, IsOk, IsTrue, None, OnErr, OnOk, Some};
ghost use Rattle.sqlite.specs.Files.{Finds, IsBlankAs, IsCleanLeft, IsOpened, LeavesFiles, file_state, image_of};
ghost use Rattle.sqlite.specs.Held.{IsNew, state};
ghost use Rattle.sqlite.specs.Start.{FindsIn};
ghost use Rattle.sqlite.specs.State.{HasCleanDisk, Survives};
ghost use Rattle.sqlite_std_file.specs.File.{file_is_usable};
ghost use Rattle.sqlite_store.specs.FileStore.{view};
ghost use Rattle.sqlite_wal.specs.Files.{image_at};
ghost use Rattle.registry_rows.specs.Frames.{Stays};
ghost use Rattle.registry_rows.specs.Ready.{Reads, Ready};
ghost use Rattle.registry_rows.specs.Tables.{no_tables};
ghost use Rattle.registry_tables.specs.Effects.{GoesOn, InForm, OnlyWhere, shown, stored};
ghost use Rattle.registry_tables.specs.Fresh.{CountsArchivesAlone};
ghost use Rattle.registry_tables.specs.Inside as inside;
ghost use Rattle.registry_tables.specs.Schema as tables;
ghost use Rattle.registry_migration.specs.Older.{schema_of};
ghost use Rattle.registry_desk.specs.Adopted.{AreFilesOf, CanBeAdopted, CanBeAdoptedAgain, IsAdopted, IsGivenBack, IsHandedBack, IsMade, IsSettled, LeavesCommitted, MakesInside, Settles, SurvivesAdoption};
ghost use Rattle.registry_desk.specs.Opened.{AreFresh, FailsToConnect, FailsToOpen, FailsToOpenSome, GivesAs, HoldsEach, HoldsFound, IsFreshIfEmpty, IsGuarded, IsLeftOf, IsMadeOf, IsMigrated, IsOurs, IsUnlimited, IsUri, LeavesAs, LeavesAtMost, LeavesAtMostOf, LeavesMigrated, schema_as};
ghost use Rattle.registry_desk.specs.Promises.{IsSure};
ghost use Rattle.registry_desk.specs.Resting.{HoldsAsWritten, IsAsWritten, Rests};

use crate::cache::Caches;
use crate::registry::Registry;
use registry_migration::{Older, is_same_schema, migrate, older_schema};
use registry_names::Fault;
use registry_rows::{commit, fault_of};
use registry_tables::{
    are_grants_in_scope, counts_archives_alone, create, numbers_are_in_range, opened,
};
use sqlite::{
    Alter, Connection, FileFrom, FileStore, Files, Leftover, Options, Start, Transaction,
};
use sqlite_disk::Disk;
use sqlite_schema::schema::Schema;
use sqlite_std_file::OpenError;
use std::alloc::Global;
use std::fs::OpenOptions;
use std::hash::{BuildHasher, RandomState};
use std::io::ErrorKind;
use std::os::unix::fs::OpenOptionsExt;

/// The number of the schema that a registry's tables have. A program that knows other tables gives
/// them a greater number. The head of the file has no application id.
pub const SCHEMA: u32 = 3;

/// How many of the file's pages are kept in memory. Room for all of them is made when it is opened:
/// 4 MB, since a page has 4 kB.
const CACHE_PAGES: usize = 1_000;

/// How many pages that a transaction has written are kept in memory before they go to the log: 4 MB.
/// The room that they had is kept for the pages of the next ones, so a long transaction takes 8 MB.
const SPILL_PAGES: usize = 1_000;

/// The mode of a new file: its owner reads and writes it, and nobody else.
const MODE: u32 = 0o600;

/// What is left of the files after an open that failed.
pub enum Unopened<D: Disk> {
    /// They hold no database that can be opened.
    Files(Leftover<D>),
    /// They hold a database, but it isn't a registry, or a fault came.
    Database(Connection<FileStore<D>>),
}

// Written out, so that to drop it is one call and not one for each part.
impl<D: Disk + Drop> Drop for Unopened<D> {
    fn drop(self) {
        match self {
            Unopened::Files(_files) => {}
            Unopened::Database(_conn) => {}
        }
    }
}

impl<D: Disk + Drop> Unopened<D> {
    /// Gives the files back. A database is closed first, which copies its log into its file; where
    /// that fails, the files are given as they are.
    pub fn into_files(self) -> Files<D>
        ensures { AreFilesOf self result }
    {
        match self {
            Unopened::Files(left) => left.into_files(),
            Unopened::Database(conn) => match conn.close_files() {
                Ok(files) => files,
                Err((_, store)) => store.close(),
            },
        }
    }
}

impl<S: Start> Registry<FileStore<FileFrom<S>>> {
    /// The registry in the file at the path, with its log beside it. A file that isn't there or is
    /// empty becomes a fresh registry, whose pages end in sums, so that a byte changed later is
    /// refused. A registry of an older schema is migrated, with all that it holds. `Database` is
    /// answered where the file can't be opened, is another program's, has the tables of another
    /// schema, counts in `sqlite_sequence` for more than the archives, grants a team something on a
    /// package of another scope, has a number out of range for a role, a status, a grant or a
    /// moment, is of an older schema and has a manifest whose needs can't be read, or is held by
    /// another process; its bytes are kept.
    ///
    /// What is said here holds as long as the disk returns what was written to it, and nobody
    /// else writes the file. The `start` represents what the files held and how a crash is read, so
    /// the clauses hold for whatever they held.
    pub fn open(
        rt: &HostRuntime,
        path: &str,
        start: S,
    ) -> Result<Registry<FileStore<FileFrom<S>>>, Fault>
        ensures found { IfOk result (λ r. HoldsFound (image_at S.Start) (file_state r)) }
        ensures each { IfOk result (λ r. HoldsEach (image_at S.Start) (file_state r)) }
        ensures empty { IfOk result (λ r. IsFreshIfEmpty (image_at S.Start) (file_state r)) }
        ensures written { IfOk result (λ r. HoldsAsWritten (file_state r)) }
        ensures served { IfOk result (λ r. HasCleanDisk (file_state r)
            → IsTrue (file_state r).is_open) }
        ensures durable { IfOk result (λ r. HasCleanDisk (file_state r) → IsSure (file_state r)) }
        ensures guarded { IfOk result (λ r. IsGuarded (file_state r)) }
        ensures unlimited { IfOk result (λ r. IsUnlimited (file_state r)) }
        ensures memory { path.now ≡ codes ":memory:" → result ≡ Err Fault.Database }
        ensures uri { IsUri path.now → result ≡ Err Fault.Database }
    {
        match Registry::open_from(rt, path, start) {
            Ok(registry) => Ok(registry),
            Err((fault, _)) => Err(fault),
        }
    }

    /// The same, but a fault hands back what is left of the files, as that of
    /// [`open_files`](Registry::open_files) does, or `None` where none were opened.
    pub fn open_from(
        rt: &HostRuntime,
        path: &str,
        start: S,
    ) -> Result<Registry<FileStore<FileFrom<S>>>, (Fault, Option<Unopened<FileFrom<S>>>)>
        ensures found { IfOk result (λ r. HoldsFound (image_at S.Start) (file_state r)) }
        ensures each { IfOk result (λ r. HoldsEach (image_at S.Start) (file_state r)) }
        ensures empty { IfOk result (λ r. IsFreshIfEmpty (image_at S.Start) (file_state r)) }
        ensures written { IfOk result (λ r. HoldsAsWritten (file_state r)) }
        ensures served { IfOk result (λ r. HasCleanDisk (file_state r)
            → IsTrue (file_state r).is_open) }
        ensures durable { IfOk result (λ r. HasCleanDisk (file_state r) → IsSure (file_state r)) }
        ensures guarded { IfOk result (λ r. IsGuarded (file_state r)) }
        ensures unlimited { IfOk result (λ r. IsUnlimited (file_state r)) }
        ensures left { IfErr result (λ e. IfSome e.1 (LeavesAtMostOf AreFresh)) }
        ensures cause { IfErr result (λ e. IfSome e.1 (FailsToOpenSome AreFresh e.0)) }
        ensures again { IfErr result (λ e. IfSome e.1 CanBeAdoptedAgain) }
        ensures memory { path.now ≡ codes ":memory:" → result ≡ Err (Fault.Database, None) }
        ensures uri { IsUri path.now → result ≡ Err (Fault.Database, None) }
    {
        let options = match options(rt) {
            Ok(options) => options,
            Err(fault) => return Err((fault, None)),
        };
        let files = match files_at(rt, path, start) {
            Ok(files) => files,
            Err(fault) => return Err((fault, None)),
        };
        match Registry::open_files(rt.alloc(), files, options) {
            Ok(registry) => Ok(registry),
            Err((fault, left)) => Err(handed_back(fault, left)),
        }
    }
}

impl<D: Disk + Drop> Registry<FileStore<D>> {
    /// The registry in these files, which need not be the machine's, as
    /// [`open`](Registry::open) opens it. A fault hands back what is left of them. As long as a
    /// database that was opened is still open, a crash then leaves it as it was found. Where a fault
    /// of the disk has shut it, a crash leaves that or all that was made of it: a fresh registry, or
    /// the migrated one.
    pub fn open_files(
        alloc: Global,
        files: Files<D>,
        options: Options,
    ) -> Result<Registry<FileStore<D>>, (Fault, Unopened<D>)>
        requires log { IsTrue (D.Disk.is_usable files.log) }
        requires db { IsTrue (D.Disk.is_usable files.db) }
        ensures found { IfOk result (λ r. HoldsFound (image_of D.Disk files) (file_state r)) }
        ensures each { IfOk result (λ r. HoldsEach (image_of D.Disk files) (file_state r)) }
        ensures empty { IfOk result (λ r. IsFreshIfEmpty (image_of D.Disk files) (file_state r)) }
        ensures written { IfOk result (λ r. HoldsAsWritten (file_state r)) }
        ensures served { IfOk result (λ r. HasCleanDisk (file_state r)
            → IsTrue (file_state r).is_open) }
        ensures durable { IfOk result (λ r. HasCleanDisk (file_state r) → IsSure (file_state r)) }
        ensures guarded { IfOk result (λ r. IsGuarded (file_state r)) }
        ensures unlimited { IfOk result (λ r. IsUnlimited (file_state r)) }
        ensures left { IfErr result (λ e. LeavesAtMost files e.1) }
        ensures cause { IfErr result (λ e. FailsToOpen files e.1 e.0) }
        ensures again { IfErr result (λ e. CanBeAdoptedAgain e.1) }
    {
        match Registry::connect(alloc, files, options) {
            Ok(conn) => match Registry::adopt(alloc, conn) {
                Ok(registry) => Ok(registry),
                Err((fault, conn)) => Err((fault, Unopened::Database(conn))),
            },
            Err((fault, left)) => Err((fault, Unopened::Files(left))),
        }
    }

    /// Opens the database in these files, as [`open_files`](Registry::open_files) does first, for
    /// [`adopt`](Registry::adopt). Files that are empty become an empty database, whose pages end
    /// in sums. What is read later is tested against a digest of what was written, and no query is
    /// cut short. `Database` is answered where the files can't be read or written, hold no database,
    /// or are at their limit, and `Memory` where there is no room for it. A fault hands back what is
    /// left of the files.
    pub fn connect(
        alloc: Global,
        files: Files<D>,
        options: Options,
    ) -> Result<Connection<FileStore<D>>, (Fault, Leftover<D>)>
        requires log { IsTrue (D.Disk.is_usable files.log) }
        requires db { IsTrue (D.Disk.is_usable files.db) }
        ensures idle { IfOk result (λ conn. conn.in_transaction ≡ false) }
        ensures opened { IfOk result (λ conn. HasCleanDisk (file_state conn) → IsOpened conn) }
        ensures found { IfOk result (λ conn. HasCleanDisk (file_state conn) → Finds files conn) }
        ensures finds { IfOk result (λ conn. HasCleanDisk (file_state conn)
            → FindsIn (image_of D.Disk files) (file_state conn)) }
        ensures rises { IfOk result (λ conn. CanBeAdopted (file_state conn)) }
        ensures sums { IfOk result (λ conn. HasCleanDisk (file_state conn)
            → IsBlankAs true (image_of D.Disk files) → (view conn.store).has_sums ≡ true) }
        ensures fresh { IfOk result IsNew }
        ensures guarded { IfOk result (λ conn. IsGuarded (file_state conn)) }
        ensures left { IfErr result (λ e. IsCleanLeft e.1 → LeavesFiles files e.1) }
        ensures cause { IfErr result (λ e. IsCleanLeft e.1 → FailsToConnect files e.1 e.0) }
    {
        match Connection::open_files_with(alloc, files, options, true) {
            Ok(conn) => Ok(conn),
            Err((error, left)) => Err((fault_of(error), left)),
        }
    }
}

impl<S: Alter> Registry<S> {
    /// Takes over a connection that is open already, whatever store it is over: one that
    /// [`connect`](Registry::connect) or [`release`](Registry::release) gives can be taken. The
    /// registry holds what the store holds where its tables are ours or those of an older schema,
    /// which are migrated, and a database without tables gets those of a fresh registry.
    ///
    /// `Database` is answered where the connection is inside a transaction, where the database has
    /// the tables of another schema or another number of ours, counts in `sqlite_sequence` for more
    /// than the archives, grants a team something on a package of another scope, has a number out
    /// of range for a role, a status, a grant or a moment, or fails; `Memory` where there is no
    /// room to read it. A connection that a fault of the disk has shut gives no registry, but one
    /// of the two. A fault hands the connection back. It shows what it showed, so it can be adopted
    /// again, and a crash leaves what was committed before and nothing else, unless a fault of the
    /// disk has shut it. Then a crash leaves that or all that was made of it: a fresh registry, or
    /// the migrated one.
    ///
    /// A step limit of the connection stays: what would take more steps is answered by a fault, here
    /// and in each request to the registry.
    pub fn adopt(alloc: Global, conn: Connection<S>) -> Result<Registry<S>, (Fault, Connection<S>)>
        requires rises { conn.in_transaction ≡ false → CanBeAdopted (state S.Store conn) }
        ensures made { IfOk result (λ r. IsMade (state S.Store conn) (state S.Store r)) }
        ensures written { IfOk result (λ r. HoldsAsWritten (state S.Store r)) }
        ensures served { IfOk result (λ r. HasCleanDisk (state S.Store r)
            → IsTrue (state S.Store r).is_open) }
        ensures durable { IfOk result (λ r. HasCleanDisk (state S.Store r) → IsSure (state S.Store r)) }
        ensures idle { conn.in_transaction ≡ true → result ≡ Err (Fault.Database, conn) }
        ensures back { IfErr result (λ e. IsHandedBack (state S.Store conn) (state S.Store e.1)) }
        ensures again { IfErr result (λ e. e.1.in_transaction ≡ false
            → CanBeAdopted (state S.Store e.1)) }
        ensures left { IfErr result (λ e.
            SurvivesAdoption (state S.Store conn) (state S.Store e.1)) }
        ensures alone { IfErr result (λ e.
            LeavesCommitted (state S.Store conn) (state S.Store e.1)) }
        ensures carried { IfOk result (λ r.
            SurvivesAdoption (state S.Store conn) (state S.Store r)) }
    {
        let mut conn = conn;
        match taken_over(alloc, &mut conn) {
            Ok(caches) => Ok(Registry { conn, caches }),
            Err(fault) => Err((fault, conn)),
        }
    }
}

// Takes over a connection: the caches of the registry that it is then.
fn taken_over<S: Alter>(alloc: Global, conn: &mut Connection<S>) -> Result<Caches, Fault>
    requires rises { conn.old.in_transaction ≡ false → CanBeAdopted (state S.Store conn.old) }
    ensures ok { IfOk result (IsAdopted (state S.Store conn.old) (state S.Store conn.new)) }
    ensures err { OnErr result
        (IsGivenBack (state S.Store conn.old) (state S.Store conn.new)) }
    ensures inside { conn.old.in_transaction ≡ true
        → (result ≡ Err Fault.Database) × (conn.new ≡ conn.old) }
{
    if !conn.is_autocommit() {
        return Err(Fault::Database);
    }
    let caches = match Caches::new(alloc) {
        Ok(caches) => caches,
        Err(_) => return Err(Fault::Memory),
    };
    match settle(alloc, conn) {
        Ok(()) => Ok(caches),
        Err(fault) => Err(fault),
    }
}

// How a registry's file is read and written. The connection has no clock, which no statement of
// ours reads.
fn options(rt: &HostRuntime) -> Result<Options, Fault>
    ensures ok { IfOk result (λ options. options.cache_pages ≡ CACHE_PAGES) }
    ensures err { IfErr result (λ fault. fault ≡ Fault.Database) }
{
    let random = RandomState::new(rt).map_err(|_| Fault::Database)?;
    Ok(Options {
        cache_pages: CACHE_PAGES,
        spill_pages: SPILL_PAGES,
        ..Options::new(random.hash_one(&0u8))
    })
}

// The files at the path, which are made if they are missing. To SQLite ":memory:" is no file and
// what begins with "file:" is a URI, so no file of such a name is made. An empty log may remain
// beside a file that is refused.
fn files_at<S: Start>(rt: &HostRuntime, path: &str, start: S) -> Result<Files<FileFrom<S>>, Fault>
    ensures memory { path.now ≡ codes ":memory:"
        → IsErrAnd result (λ fault. fault ≡ Fault.Database) }
    ensures uri { IsUri path.now → IsErrAnd result (λ fault. fault ≡ Fault.Database) }
    ensures log { IfOk result (λ files. IsTrue (file_is_usable S.Start files.log)) }
    ensures db { IfOk result (λ files. IsTrue (file_is_usable S.Start files.db)) }
    ensures fresh { IfOk result AreFresh }
{
    if path == ":memory:" || path.starts_with("file:") {
        return Err(Fault::Database);
    }
    make(rt, path);
    sqlite_std_file::open(rt, path, start).map_err(fault_of_open)
}

// Of files that were opened, what is left is handed back.
fn handed_back<D: Disk + Drop>(fault: Fault, left: Unopened<D>) -> (Fault, Option<Unopened<D>>)
    ensures { result ≡ (fault, Some left) }
{
    (fault, Some(left))
}

// Makes a file that isn't there, for its owner alone. A new log gets the same mode. Where the file
// can't be made, the open says so.
fn make(rt: &HostRuntime, path: &str) {
    let _ = OpenOptions::new()
        .write(true)
        .create_new(true)
        .mode(MODE)
        .open(rt, path);
}

// The fault that is answered where the files at a path can't be opened.
fn fault_of_open(error: OpenError) -> Fault
    ensures memory { error ≡ OpenError.OutOfMemory → result ≡ Fault.Memory }
    ensures busy { error ≡ OpenError.Busy → result ≡ Fault.Database }
{
    match error {
        OpenError::OutOfMemory => Fault::Memory,
        OpenError::Io(error) if error.kind() == ErrorKind::OutOfMemory => Fault::Memory,
        _ => Fault::Database,
    }
}

// ---- what a registry is made of

/// What tables a database has, of which a registry is made.
#[derive(Clone, Copy)]
pub(crate) enum Base {
    /// None: it becomes a fresh registry.
    Empty,
    /// Those of a registry.
    Ours,
    /// Those of an older schema, which are migrated.
    Older(Older),
}

// Makes a registry of what the database has, or tests that it is one.
fn settle<S: Alter>(alloc: Global, conn: &mut Connection<S>) -> Result<(), Fault>
    requires idle { conn.old.in_transaction ≡ false }
    requires rises { CanBeAdopted (state S.Store conn.old) }
    requires settled { IsSettled (state S.Store conn.old) }
    ensures { Settles (state S.Store conn.old) (state S.Store conn.new)
        (IsMadeOf (state S.Store conn.old).now) (IsLeftOf (state S.Store conn.old).now) result }
{
    match base_of(alloc, conn.schema()) {
        Ok(Some(base)) => settle_as(alloc, conn, base),
        Ok(None) => Err(Fault::Database),
        Err(fault) => Err(fault),
    }
}

// What tables these are. `None` where no registry is made of them.
fn base_of(alloc: Global, schema: &Schema) -> Result<Option<Base>, Fault>
    ensures { IfOk result (λ base. IfSome base (λ is. schema.now ≡ schema_as is)) }
{
    if has_nothing(schema) {
        return Ok(Some(Base::Empty));
    }
    if has_our_tables(alloc, schema)? {
        return Ok(Some(Base::Ours));
    }
    match older_schema(alloc, schema)? {
        Some(older) => Ok(Some(Base::Older(older))),
        None => Ok(None),
    }
}

fn has_nothing(schema: &Schema) -> bool
    ensures { IsTrue result ↔ (schema.now ≡ no_tables) }
{
    schema.tables.is_empty() && schema.indexes.is_empty() && schema.views.is_empty()
}

/// Whether the connection's database has the tables of a registry. What they hold isn't looked at, so
/// it may open as none.
pub fn has_tables<S: Alter>(alloc: Global, conn: &Connection<S>) -> Result<bool, Fault>
    requires rises { CanBeAdopted (state S.Store conn.now) }
    ensures exact { IfOk result (λ has. IsTrue has
        ↔ ((state S.Store conn.now).now.schema ≡ tables.schema)) }
    ensures ready { IfOk result (λ has. IsTrue has
        → Ready tables.schema (state S.Store conn.now)) }
{
    has_our_tables(alloc, conn.schema())
}

// Whether the schema is that of a registry, as a fresh one in memory has it.
fn has_our_tables(alloc: Global, schema: &Schema) -> Result<bool, Fault>
    ensures { IfOk result (λ ours. IsTrue ours ↔ (schema.now ≡ tables.schema)) }
{
    let Ok(mut conn) = Connection::open_in_memory(alloc) else {
        return Err(Fault::Memory);
    };
    settle_as(alloc, &mut conn, Base::Empty)?;
    Ok(is_same_schema(conn.schema(), schema))
}

// Makes a registry of these tables, in one transaction.
pub(crate) fn settle_as<S: Alter>(
    alloc: Global,
    conn: &mut Connection<S>,
    base: Base,
) -> Result<(), Fault>
    requires idle { conn.old.in_transaction ≡ false }
    requires ready { Ready (schema_as base) (state S.Store conn.old) }
    ensures { Settles (state S.Store conn.old) (state S.Store conn.new)
        (GivesAs base (state S.Store conn.old).now.trees)
        (LeavesAs base (state S.Store conn.old).now.trees) result }
{
    let mut tx = conn.transaction();
    match settle_inside(alloc, &mut tx, base) {
        Ok(()) => commit(tx),
        Err(fault) => Err(fault),
    }
}

// The same inside the transaction.
fn settle_inside<S: Alter>(
    alloc: Global,
    tx: &mut Transaction<'_, S>,
    base: Base,
) -> Result<(), Fault>
    requires ready { Ready (schema_as base) (shown S.Store tx.old) }
    requires going { GoesOn S.Store tx.old }
    ensures stays { Stays S.Store tx.old tx.new }
    ensures made { HasCleanDisk (shown S.Store tx.new) → OnOk result
        (MakesInside (shown S.Store tx.old) (shown S.Store tx.new)
        (GivesAs base (shown S.Store tx.old).now.trees)
        (LeavesAs base (shown S.Store tx.old).now.trees)) }
{
    match base {
        Base::Empty => create(tx),
        Base::Ours => check_rows(tx),
        Base::Older(older) => migrate_rows(alloc, tx, older),
    }
}

// Makes rows of an older schema ours. `Database` is also returned where the registry isn't sound.
fn migrate_rows<S: Alter>(
    alloc: Global,
    tx: &mut Transaction<'_, S>,
    older: Older,
) -> Result<(), Fault>
    requires older { Ready (schema_of older) (shown S.Store tx.old) }
    ensures stays { Stays S.Store tx.old tx.new }
    ensures made { HasCleanDisk (shown S.Store tx.new) → OnOk result
        (MakesInside (shown S.Store tx.old) (shown S.Store tx.new)
        (IsMigrated older (shown S.Store tx.old).now.trees)
        (LeavesMigrated older (shown S.Store tx.old).now.trees)) }
{
    migrate(alloc, tx, older)?;
    check_sound(tx)
}

// `Database` is returned for another number of the schema, for a counter besides that of the
// archives, and for a registry that isn't sound.
fn check_rows<S: Alter>(tx: &mut Transaction<'_, S>) -> Result<(), Fault>
    requires in_form { InForm S.Store tx.old }
    requires going { GoesOn S.Store tx.old }
    ensures stays { Stays S.Store tx.old tx.new }
    ensures reads { HasCleanDisk (shown S.Store tx.new)
        → OnOk result (Reads tables.schema (shown S.Store tx.old) (shown S.Store tx.new)) }
    ensures ours { OnlyWhere S.Store tx.old tx.new result IsOurs }
{
    check_number(opened(tx)?)?;
    check_held(tx)
}

// The same of what the tables hold, and of the counters.
fn check_held<S: Alter>(tx: &mut Transaction<'_, S>) -> Result<(), Fault>
    ensures { inside.Finds S.Store tx.old tx.new result
        (λ _ c. CountsArchivesAlone c × IsAsWritten c) }
{
    check_so(counts_archives_alone(tx)?)?;
    check_sound(tx)
}

// `Database` is returned where something is stored that no registry stores, and from which requests
// would be decided.
fn check_sound<S: Alter>(tx: &mut Transaction<'_, S>) -> Result<(), Fault>
    ensures { inside.Finds S.Store tx.old tx.new result (λ _ c. IsAsWritten c) }
{
    check_so(are_grants_in_scope(tx)?)?;
    check_so(numbers_are_in_range(tx)?)
}

// `Database` is returned for what isn't so.
fn check_so(is_so: bool) -> Result<(), Fault>
    ensures ok { IsOk result ↔ IsTrue is_so }
    ensures err { IfErr result (λ fault. fault ≡ Fault.Database) }
{
    if is_so { Ok(()) } else { Err(Fault::Database) }
}

// `Database` is returned for another number of the schema than ours, and for none.
fn check_number(number: Option<u32>) -> Result<(), Fault>
    ensures ok { IsOk result ↔ (number ≡ Some SCHEMA) }
    ensures err { IfErr result (λ fault. fault ≡ Fault.Database) }
{
    if number == Some(SCHEMA) {
        Ok(())
    } else {
        Err(Fault::Database)
    }
}
