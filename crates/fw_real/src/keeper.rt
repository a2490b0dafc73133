ghost use Rattle.std.specs.Prelude.{◌≡◌, ◌∷◌, [], Some, None, Ok, Err, IfOk, IfErr, OnOk, OnErr, MatchOption};
ghost use Rattle.fw_outside.specs.Counts.{Grew, counted};
ghost use Rattle.fw_types.specs.Keyed.{Ascends};
ghost use Rattle.fw_outside.specs.KeeperView.{AreLoaded, Refuses, Sets, entry_name};
ghost use Rattle.sqlite.specs.declared.types.Value.TheVariants.{Text, Blob};
ghost use Rattle.fw_real.specs.Records.{Did, IsOpen, StaysClosed, StaysClosedOrDid, after_fault, untold_keeper};
ghost use Rattle.fw_real.specs.Statements.{FailsToLoad, Loads, Runs, drop_text, put_text};

use crate::database::Database;
use fw_outside::{KeepFault, Keeper};
use fw_types::{Name, NoMemory, Octets};

/// Records in a file, which is a database of SQLite with the table `user (name TEXT PRIMARY KEY NOT NULL, record BLOB
/// NOT NULL)`.
///
/// The file is opened at the first call, and made where it is missing, for its owner alone. It is locked as long as it
/// is open, so nobody else can open it, and a file that somebody else has open is a failure. Once it is open it stays
/// open until the records are dropped, also where a call is refused. A call that couldn't open it leaves it closed, and
/// the next one tries again. A file that is no database, or a damaged one, is refused and left as it is.
#[derive(Drop)]
pub struct Records {
    system: HostRuntime,
    path: Octets,
    database: Option<Database>,
    faults: u64,
    calls: u64,
}

impl Records {
    /// The records in the file at this path, which is opened, or made, at the first call.
    pub fn new(system: HostRuntime, path: &[u8]) -> Result<Records, NoMemory>
        ensures path { IfOk result (λ records. records.path ≡ path.now) }
        ensures closed { IfOk result (λ records. records.database ≡ None) }
        ensures faults { IfOk result (λ records. records.faults ≡ 0) }
        ensures calls { IfOk result (λ records. records.calls ≡ 0) }
    {
        Ok(Records {
            system,
            path: Octets::copy(system.alloc(), path)?,
            database: None,
            faults: 0,
            calls: 0,
        })
    }

    // The open database, which is taken out, or the file opened.
    fn take_open(&mut self) -> Result<Database, KeepFault>
        ensures open { IfOk result (λ database. MatchOption self.old.database (IsOpen self.old.path database) (λ old.
            database ≡ old)) }
        ensures closed { OnErr result (StaysClosed self.old.database self.new.database) }
        ensures faults { self.new.faults ≡ self.old.faults }
        ensures calls { self.new.calls ≡ self.old.calls }
        ensures path { self.new.path ≡ self.old.path }
    {
        match self.database.take() {
            Some(database) => Ok(database),
            None => Database::open(&self.system, &self.path),
        }
    }

    fn put_in_file(&mut self, name: &Name, bytes: &[u8]) -> Result<(), KeepFault>
        ensures did { OnOk result (Did self.old.path (λ old new.
            Runs put_text (Text name.now ∷ Blob bytes.now ∷ []) old new (Ok (record {}))) self.old.database
            self.new.database) }
        ensures not_done { IfErr result (λ fault. StaysClosedOrDid self.old.path (λ old new.
            Runs put_text (Text name.now ∷ Blob bytes.now ∷ []) old new (Err fault)) self.old.database
            self.new.database) }
        ensures faults { self.new.faults ≡ self.old.faults }
        ensures calls { self.new.calls ≡ self.old.calls }
        ensures path { self.new.path ≡ self.old.path }
    {
        let mut database = self.take_open()?;
        let answer = database.put(name, bytes);
        self.database = Some(database);
        answer
    }

    fn drop_in_file(&mut self, name: &Name) -> Result<(), KeepFault>
        ensures did { OnOk result (Did self.old.path (λ old new.
            Runs drop_text (Text name.now ∷ []) old new (Ok (record {}))) self.old.database self.new.database) }
        ensures not_done { IfErr result (λ fault. StaysClosedOrDid self.old.path (λ old new.
            Runs drop_text (Text name.now ∷ []) old new (Err fault)) self.old.database self.new.database) }
        ensures faults { self.new.faults ≡ self.old.faults }
        ensures calls { self.new.calls ≡ self.old.calls }
        ensures path { self.new.path ≡ self.old.path }
    {
        let mut database = self.take_open()?;
        let answer = database.drop_name(name);
        self.database = Some(database);
        answer
    }

    fn load_from_file(&mut self) -> Result<Vec<(Name, Octets)>, KeepFault>
        ensures ordered { IfOk result (λ loaded. Ascends entry_name loaded.items) }
        ensures did { IfOk result (λ loaded. Did self.old.path (λ old new.
            Loads old new loaded.items) self.old.database self.new.database) }
        ensures not_done { IfErr result (λ fault. StaysClosedOrDid self.old.path (λ old new.
            FailsToLoad old new fault) self.old.database self.new.database) }
        ensures faults { self.new.faults ≡ self.old.faults }
        ensures calls { self.new.calls ≡ self.old.calls }
        ensures path { self.new.path ≡ self.old.path }
    {
        let mut database = self.take_open()?;
        let answer = database.load(self.system.alloc());
        self.database = Some(database);
        answer
    }

    // Counts a call.
    fn count_call(&mut self)
        ensures grew { Grew 1 self.old.calls self.new.calls }
        ensures is { self.new ≡ record self.old { calls = counted self.old.calls } }
    {
        self.calls = self.calls.saturating_add(1);
    }

    // Counts a call, and a failure; want of memory isn't one.
    fn count(&mut self, fault: KeepFault) -> KeepFault
        ensures answer { result ≡ fault }
        ensures refuses { Refuses fault (untold_keeper self.old.faults self.old.calls)
            (untold_keeper self.new.faults self.new.calls) }
        ensures is { self.new ≡ record self.old {
          faults = after_fault fault self.old.faults;
          calls = counted
              self.old.calls;
        } }
    {
        self.count_call();
        if fault == KeepFault::Failed {
            self.faults = self.faults.saturating_add(1);
        }
        fault
    }
}

impl Keeper for Records {
    ghost keeper_view = { λ r. untold_keeper r.faults r.calls };

    fn put(&mut self, name: &Name, bytes: &[u8]) -> Result<(), KeepFault>
        ensures sets { Sets result name.now (Some bytes.now) (untold_keeper self.old.faults self.old.calls)
            (untold_keeper self.new.faults self.new.calls) }
        ensures did { OnOk result (Did self.old.path (λ old new.
            Runs put_text (Text name.now ∷ Blob bytes.now ∷ []) old new (Ok (record {}))) self.old.database
            self.new.database) }
        ensures not_done { IfErr result (λ fault. StaysClosedOrDid self.old.path (λ old new.
            Runs put_text (Text name.now ∷ Blob bytes.now ∷ []) old new (Err fault)) self.old.database
            self.new.database) }
        ensures path { self.new.path ≡ self.old.path }
    {
        match self.put_in_file(name, bytes) {
            Ok(()) => {
                self.count_call();
                Ok(())
            }
            Err(fault) => Err(self.count(fault)),
        }
    }

    fn drop_name(&mut self, name: &Name) -> Result<(), KeepFault>
        ensures sets { Sets result name.now None (untold_keeper self.old.faults self.old.calls)
            (untold_keeper self.new.faults self.new.calls) }
        ensures did { OnOk result (Did self.old.path (λ old new.
            Runs drop_text (Text name.now ∷ []) old new (Ok (record {}))) self.old.database self.new.database) }
        ensures not_done { IfErr result (λ fault. StaysClosedOrDid self.old.path (λ old new.
            Runs drop_text (Text name.now ∷ []) old new (Err fault)) self.old.database self.new.database) }
        ensures path { self.new.path ≡ self.old.path }
    {
        match self.drop_in_file(name) {
            Ok(()) => {
                self.count_call();
                Ok(())
            }
            Err(fault) => Err(self.count(fault)),
        }
    }

    fn load(&mut self) -> Result<Vec<(Name, Octets)>, KeepFault>
        ensures loaded { IfOk result (λ loaded.
            AreLoaded loaded.items (untold_keeper self.old.faults self.old.calls)
            (untold_keeper self.new.faults self.new.calls)) }
        ensures refused { IfErr result (λ fault.
            Refuses fault (untold_keeper self.old.faults self.old.calls)
            (untold_keeper self.new.faults self.new.calls)) }
        ensures did { IfOk result (λ loaded. Did self.old.path (λ old new.
            Loads old new loaded.items) self.old.database self.new.database) }
        ensures not_done { IfErr result (λ fault. StaysClosedOrDid self.old.path (λ old new.
            FailsToLoad old new fault) self.old.database self.new.database) }
        ensures path { self.new.path ≡ self.old.path }
    {
        match self.load_from_file() {
            Ok(loaded) => {
                self.count_call();
                Ok(loaded)
            }
            Err(fault) => Err(self.count(fault)),
        }
    }
}
