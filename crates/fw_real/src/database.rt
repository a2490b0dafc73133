//! The file of the records, while it is open.
ghost use Rattle.std.specs.Prelude.{◌≡◌, ◌∷◌, [], IfOk, IfErr};
ghost use Rattle.sqlite.specs.Files.{IsOpened};
ghost use Rattle.sqlite.specs.State.{HasCleanDisk};
ghost use Rattle.sqlite.specs.declared.types.Value.TheVariants.{Text, Blob};
ghost use Rattle.fw_types.specs.Keyed.{Ascends};
ghost use Rattle.fw_outside.specs.KeeperView.{entry_name};
ghost use Rattle.fw_real.specs.Records.{IsReadyIfClean, shown_by};
ghost use Rattle.fw_real.specs.Statements.{FailsToLoad, Loads, Runs, drop_text, put_text, create_text};

use crate::private::make_private;
use crate::statements::{self, keep_fault_of};
use fw_outside::KeepFault;
use fw_types::{Name, Octets};
use sqlite::{Connection, FileFrom, FileStore, Wary};
use std::alloc::Global;
use std::snapshot::Snapshot;
use std::str;

/// An open file of records, and the path by which it was opened.
pub(crate) struct Database {
    connection: Connection<FileStore<FileFrom<Wary>>>,
    path: Snapshot<Octets>,
}

/// Closes the file: what its log holds is copied into it.
impl Drop for Database {
    fn drop(self) {
        let Database {
            connection,
            path: _,
        } = self;
        let _ = connection.close();
    }
}

// Opens the file of this path. That it is the file which stands there is the system's word.
fn connect(system: &HostRuntime, path: &Octets) -> Result<Database, KeepFault>
    ensures opened { IfOk result (λ database. HasCleanDisk (shown_by database) → IsOpened database.connection) }
    ensures path { IfOk result (λ database. database.path.value ≡ path.now) }
{
    let Ok(text) = str::from_utf8(path.bytes()) else {
        return Err(KeepFault::Failed);
    };
    if make_private(system, text).is_err() {
        return Err(KeepFault::Failed);
    }
    match Connection::open_from(system, text, false, Wary) {
        Ok(connection) => Ok(Database {
            connection,
            path: Snapshot::of(path),
        }),
        Err((error, _)) => Err(keep_fault_of(error)),
    }
}

impl Database {
    /// The database at the path, with the table of the records. Both are made where they are missing.
    pub(crate) fn open(system: &HostRuntime, path: &Octets) -> Result<Database, KeepFault>
        ensures ready { IfOk result IsReadyIfClean }
        ensures path { IfOk result (λ database. database.path.value ≡ path.now) }
    {
        let mut database = connect(system, path)?;
        database.make_table()?;
        Ok(database)
    }

    // Makes the table where there is none of its name.
    fn make_table(&mut self) -> Result<(), KeepFault>
        ensures clean { HasCleanDisk (shown_by self.new) → HasCleanDisk (shown_by self.old) }
        ensures runs { HasCleanDisk (shown_by self.new) →
            Runs create_text [] (shown_by self.old) (shown_by self.new) result }
        ensures path { self.new.path ≡ self.old.path }
    {
        statements::make_table(&mut self.connection)
    }

    /// Runs the statement that keeps the bytes under the name, in place of those that stood there. That the file has
    /// them where it answers Ok is tested; that they survive a loss of power is trusted.
    pub(crate) fn put(&mut self, name: &Name, bytes: &[u8]) -> Result<(), KeepFault>
        ensures { HasCleanDisk (shown_by self.new) →
            Runs put_text (Text name.now ∷ Blob bytes.now ∷ []) (shown_by self.old) (shown_by self.new) result }
    {
        statements::put(&mut self.connection, name, bytes)
    }

    /// Keeps nothing under the name.
    pub(crate) fn drop_name(&mut self, name: &Name) -> Result<(), KeepFault>
        ensures { HasCleanDisk (shown_by self.new) →
            Runs drop_text (Text name.now ∷ []) (shown_by self.old) (shown_by self.new) result }
    {
        statements::drop_name(&mut self.connection, name)
    }

    /// All names with their bytes, in the order of the names.
    pub(crate) fn load(&mut self, alloc: Global) -> Result<Vec<(Name, Octets)>, KeepFault>
        ensures ordered { IfOk result (λ loaded. Ascends entry_name loaded.items) }
        ensures loaded { HasCleanDisk (shown_by self.new) → IfOk result (λ loaded.
            Loads (shown_by self.old) (shown_by self.new) loaded.items) }
        ensures refused { HasCleanDisk (shown_by self.new) →
            IfErr result (FailsToLoad (shown_by self.old) (shown_by self.new)) }
    {
        statements::load(alloc, &mut self.connection)
    }
}
