//! What a keeper's calls do to an open database.
ghost use Rattle.std.specs.Prelude.{◌≡◌, ◌∷◌, [], IfOk, IfErr};
ghost use Rattle.sqlite.specs.Held.{state};
ghost use Rattle.sqlite.specs.State.{HasCleanDisk, Shown};
ghost use Rattle.sqlite.specs.Values.{bound};
ghost use Rattle.sqlite.specs.declared.types.Value.TheVariants.{Text, Blob};
ghost use Rattle.fw_types.specs.Keyed.{Ascends};
ghost use Rattle.fw_outside.specs.KeeperView.{entry_name};
ghost use Rattle.fw_real.specs.Statements.{FailsToLoad, IsQueryRefused, Loads, Runs, keep_fault_of, drop_text, load_text, put_text, create_text};

use crate::entries::read_all;
use fw_outside::KeepFault;
use fw_types::{Name, Octets};
use sqlite::types::ValueRef;
use sqlite::{Alter, Connection, Error, ErrorCode, Row};
use std::alloc::Global;

/// The table of the records: a name, and the bytes that are kept under it.
const TABLE: &str =
    "CREATE TABLE IF NOT EXISTS user (name TEXT PRIMARY KEY NOT NULL, record BLOB NOT NULL) STRICT";

const PUT: &str =
    "INSERT INTO user (name, record) VALUES (?1, ?2) ON CONFLICT (name) DO UPDATE SET record = excluded.record";

const DROP: &str = "DELETE FROM user WHERE name = ?1";

const LOAD: &str = "SELECT * FROM user ORDER BY name";

/// What an error of the database means: want of memory, or a failure.
pub(crate) fn keep_fault_of(error: Error) -> KeepFault
    ensures { result ≡ keep_fault_of error }
{
    match error {
        Error::SqliteFailure(ErrorCode::OutOfMemory) => KeepFault::NoMemory,
        _ => KeepFault::Failed,
    }
}

fn run<S: Alter>(
    database: &mut Connection<S>,
    text: &str,
    values: &[ValueRef<'_>],
) -> Result<(), KeepFault>
    ensures clean { HasCleanDisk (state S.Store database.new) → HasCleanDisk (state S.Store database.old) }
    ensures runs { HasCleanDisk (state S.Store database.new) →
        Runs text.now (bound values.now) (state S.Store database.old) (state S.Store database.new) result }
{
    match database.execute(text, values) {
        Ok(_) => Ok(()),
        Err(error) => Err(keep_fault_of(error)),
    }
}

/// Makes the table where there is none of its name.
pub(crate) fn make_table<S: Alter>(database: &mut Connection<S>) -> Result<(), KeepFault>
    ensures clean { HasCleanDisk (state S.Store database.new) → HasCleanDisk (state S.Store database.old) }
    ensures runs { HasCleanDisk (state S.Store database.new) →
        Runs create_text [] (state S.Store database.old) (state S.Store database.new) result }
{
    run(database, TABLE, &[])
}

/// Keeps the bytes under the name, in place of those that stood there.
pub(crate) fn put<S: Alter>(
    database: &mut Connection<S>,
    name: &Name,
    bytes: &[u8],
) -> Result<(), KeepFault>
    ensures { HasCleanDisk (state S.Store database.new) →
        Runs put_text (Text name.now ∷ Blob bytes.now ∷ []) (state S.Store database.old) (state S.Store database.new)
        result }
{
    run(
        database,
        PUT,
        &[ValueRef::Text(name.text()), ValueRef::Blob(bytes)],
    )
}

/// Keeps nothing under the name.
pub(crate) fn drop_name<S: Alter>(
    database: &mut Connection<S>,
    name: &Name,
) -> Result<(), KeepFault>
    ensures { HasCleanDisk (state S.Store database.new) →
        Runs drop_text (Text name.now ∷ []) (state S.Store database.old) (state S.Store database.new) result }
{
    run(database, DROP, &[ValueRef::Text(name.text())])
}

fn rows<S: Alter>(database: &mut Connection<S>) -> Result<Vec<Row>, KeepFault>
    ensures shown { HasCleanDisk (state S.Store database.new) →
        IfOk result (λ rows. Shown load_text [] (state S.Store database.old) (state S.Store database.new) rows.items) }
    ensures refused { HasCleanDisk (state S.Store database.new) →
        IfErr result (IsQueryRefused load_text (state S.Store database.old) (state S.Store database.new)) }
{
    match database.query_all(LOAD, &[]) {
        Ok(rows) => Ok(rows),
        Err(error) => Err(keep_fault_of(error)),
    }
}

/// All names with their bytes, in order.
pub(crate) fn load<S: Alter>(
    alloc: Global,
    database: &mut Connection<S>,
) -> Result<Vec<(Name, Octets)>, KeepFault>
    ensures ordered { IfOk result (λ loaded. Ascends entry_name loaded.items) }
    ensures loaded { HasCleanDisk (state S.Store database.new) →
        IfOk result (λ loaded. Loads (state S.Store database.old) (state S.Store database.new) loaded.items) }
    ensures refused { HasCleanDisk (state S.Store database.new) →
        IfErr result (FailsToLoad (state S.Store database.old) (state S.Store database.new)) }
{
    let rows = rows(database)?;
    read_all(alloc, &rows)
}
