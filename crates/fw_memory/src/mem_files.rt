ghost use Rattle.std.specs.Prelude.{◌≡◌, ◌⊎◌, ◌+◌, ◌<◌, [], ◌∷◌, ◌++◌, true, false, IfOk, IfSome, IfNone, OnOk, OnErr, if◌then◌else◌};
ghost use Rattle.std.specs.Option.{option_copied};
ghost use Rattle.std.specs.Str.{bytes_eq};
ghost use Rattle.fw_outside.specs.ToldList.{AddsOne};
ghost use Rattle.fw_outside.specs.FilesView.{Counts, MissesFile, Opens, TakesBack, bytes_under};
ghost use Rattle.fw_memory.specs.MemFilesView.{CountsMissing, IfHeld, IsSourceOf, KeepsFiles, KeepsNames, NotesName, NotesNone, files_view_of};
ghost use Rattle.fw_memory.specs.MemSourceView.{source_view_of};

use crate::{Calls, MemSource};
use fw_outside::Files;
use fw_types::{NoMemory, Octets};
use std::alloc::Global;
use std::marker::Model;

/// Files in memory. Each source that they give is a `MemSource`.
#[derive(Drop)]
pub struct MemFiles {
    alloc: Global,
    files: Vec<(Octets, Octets)>,
    piece: usize,
    fails: Calls,
    idle: Calls,
    asked: Vec<Octets>,
    asked_past: bool,
    missing: u64,
    read_faults: u64,
    out: u64,
}

impl Model for MemFiles {
    ghost use Rattle.std.specs.Prelude.{◌<◌};
    ghost use Rattle.fw_memory.specs.MemFilesView.{MemFilesView};

    ghost Value = { MemFilesView };

    ghost view = { λ s. record {
      files = s.files.items;
      piece = s.piece;
      fails = s.fails;
      idle = s.idle;
      asked = s.asked.items;
      asked_past = s.asked_past;
      missing = s.missing;
      read_faults = s.read_faults;
      out = s.out;
    } };

    ghost invariant = { λ s. 0 < s.piece };
}

// Whether the name is this one.
fn is_named(entry: &(Octets, Octets), name: &[u8]) -> bool
    ensures { result ≡ bytes_eq entry.now.0 name.now }
{
    entry.0.bytes() == name
}

// The bytes under a name.
fn find<'a>(files: &'a [(Octets, Octets)], name: &[u8]) -> Option<&'a Octets>
    ensures { option_copied result ≡ bytes_under files.entry.now name.now }
{
    files
        .iter()
        .find(|entry| is_named(entry, name))
        .map(|entry| &entry.1)
}

impl MemFiles {
    /// Files with these names and bytes. Of a name that stands twice the first counts. Each source gives at most
    /// `piece` bytes at a call, fails at the calls in `fails` and is idle at those in `idle`. Memory for the sources
    /// and for the names that are asked comes from `alloc`; where there is none, the file counts as missing.
    pub fn new(
        alloc: Global,
        files: Vec<(Octets, Octets)>,
        piece: usize,
        fails: Calls,
        idle: Calls,
    ) -> MemFiles
        requires { 0 < piece }
        ensures { result ≡ record {
          files = files.items;
          piece = piece;
          fails = fails;
          idle = idle;
          asked = [];
          asked_past = false;
          missing = 0;
          read_faults = 0;
          out = 0;
        } }
    {
        MemFiles {
            alloc,
            files,
            piece,
            fails,
            idle,
            asked: Vec::new(alloc),
            asked_past: false,
            missing: 0,
            read_faults: 0,
            out: 0,
        }
    }

    /// The names for which a source was asked, in order: all of them, or the ones for which there was memory.
    pub fn asked(&self) -> &[Octets]
        ensures { result.now ≡ self.now.asked }
    {
        &self.asked
    }

    // Keeps one more name that was asked, unless there is no memory for it.
    fn keep(&mut self, name: &[u8]) -> Result<(), NoMemory>
        ensures ok { OnOk result (self.new ≡ record self.old { asked = self.old.asked ++ name.now ∷ [] }) }
        ensures err { OnErr result (self.new ≡ self.old) }
    {
        let name = Octets::copy(self.alloc, name)?;
        self.asked.push(name)?;
        Ok(())
    }

    // Notes one more name that was asked, and says whether there was memory for it.
    fn note(&mut self, name: &[u8]) -> bool
        ensures is { self.new ≡ (if result then record self.old { asked = self.old.asked ++ name.now ∷ [] }
            else record self.old { asked_past = true }) }
        ensures adds { AddsOne name.now (files_view_of self.old).asked (files_view_of self.new).asked }
    {
        match self.keep(name) {
            Ok(()) => true,
            Err(NoMemory) => {
                self.asked_past = true;
                false
            }
        }
    }

    // A new source of the bytes under the name.
    fn open(&self, name: &[u8]) -> Result<Option<MemSource>, NoMemory>
        ensures found { IfOk result (IfHeld self.now name.now) }
    {
        let Some(bytes) = find(&self.files, name) else {
            return Ok(None);
        };
        let bytes = Octets::copy(self.alloc, bytes.bytes())?;
        let fails = self.fails.copy(self.alloc)?;
        let idle = self.idle.copy(self.alloc)?;
        Ok(Some(MemSource::new(bytes, self.piece, fails, idle)))
    }

    fn miss(&mut self)
        ensures { CountsMissing self.old self.new }
    {
        self.missing = self.missing.saturating_add(1);
    }

    // Gives a source out, where the count of those that are out has room.
    fn send(&mut self, source: MemSource) -> Option<MemSource>
        ensures same { IfSome result (λ sent. sent ≡ source) }
        ensures sent { IfSome result (λ _. self.new ≡ record self.old { out = self.old.out + 1 }) }
        ensures missing { IfNone result (CountsMissing self.old self.new) }
    {
        match self.out.checked_add(1) {
            Some(out) => {
                self.out = out;
                Some(source)
            }
            None => {
                self.miss();
                None
            }
        }
    }

    // Gives a source of the bytes under the name out, where there is one to be had.
    fn give(&mut self, name: &[u8]) -> Option<MemSource>
        ensures told { IfSome result (IsSourceOf self.old (bytes_under self.old.files name.now)) }
        ensures sent { IfSome result (λ _. self.new ≡ record self.old { out = self.old.out + 1 }) }
        ensures missing { IfNone result (CountsMissing self.old self.new) }
    {
        match self.open(name) {
            Ok(Some(source)) => self.send(source),
            _ => {
                self.miss();
                None
            }
        }
    }

    fn count_fault(&mut self)
        ensures counts { Counts (files_view_of self.old) (files_view_of self.new) }
        ensures kept { KeepsFiles self.old self.new }
        ensures names { KeepsNames self.old self.new }
    {
        self.read_faults = self.read_faults.saturating_add(1);
    }
}

impl Files for MemFiles {
    type Src = MemSource;

    ghost files_view = { files_view_of };

    fn source(&mut self, name: &[u8]) -> Option<MemSource>
        ensures found { IfSome result (λ source.
            Opens name.now (source_view_of source) (files_view_of self.old) (files_view_of self.new)) }
        ensures missing { IfNone result (MissesFile name.now (files_view_of self.old) (files_view_of self.new)) }
        ensures told { IfSome result (IsSourceOf self.old (bytes_under self.old.files name.now)) }
        ensures noted { IfSome result (λ _. NotesName name.now self.old self.new) }
        ensures noted_or_lost { NotesName name.now self.old self.new ⊎ NotesNone self.old self.new }
        ensures kept { KeepsFiles self.old self.new }
    {
        if self.note(name) {
            return self.give(name);
        }
        self.miss();
        None
    }

    fn back(&mut self, source: MemSource)
        ensures back { TakesBack (source_view_of source) (files_view_of self.old) (files_view_of self.new) }
        ensures kept { KeepsFiles self.old self.new }
        ensures names { KeepsNames self.old self.new }
    {
        self.out = self.out.saturating_sub(1);
        if source.has_failed() {
            self.count_fault();
        }
    }
}
