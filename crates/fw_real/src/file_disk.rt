ghost use Rattle.std.specs.Prelude.{◌≡◌, ◌≤◌, false, true, length, option_map, Some, IfOk, IfSome, IsErr, OnOk};
ghost use Rattle.fw_outside.specs.Counts.{Rose, counted};
ghost use Rattle.fw_disk.specs.DiskView.{Changes, Doubts, Reads, Syncs};
ghost use Rattle.fw_disk.specs.Medium.{cut_at, written_at};
ghost use Rattle.fw_real.specs.Disks.{is_lost_after, untold_disk};
ghost use Rattle.fw_real.specs.FileView.{Cuts, IsDone, IsKept, IsReadFrom, IsSynced, Lays};

use crate::RawFile;
use crate::through::{read_through, write_through};
use fw_disk::Disk;
use fw_outside::Failed;
use std::io::{self, ErrorKind};

/// Where the file of a disk stands.
pub trait Place<F>: Drop {
    /// Opens the file there, or answers that there is none.
    fn open(&self) -> io::Result<Option<F>>;
}

// Writes the first byte of a file back as it is read, where there is one.
#[tactic(auto, using(crate::proofs::FileLemmas::written_back))]
fn write_back<F: RawFile>(file: &mut F) -> io::Result<()>
    ensures { OnOk result (IfSome (F.file_view file.old) (λ f. F.file_view file.new ≡ Some f)) }
{
    let mut first = [0];
    let count = read_through(file, 0, &mut first)?;
    write_through(file, 0, &first[..count])
}

// A file that was just opened, its first byte written back.
fn written_back<F: RawFile>(opened: Option<F>) -> io::Result<Option<F>> {
    match opened {
        Some(mut file) => {
            write_back(&mut file)?;
            Ok(Some(file))
        }
        None => Ok(None),
    }
}

/// A file as a disk, which is opened at the first call, and stays open.
///
/// As it is opened its first byte is written back as read. A read may give a byte that an earlier process wrote and
/// whose sync failed: the system has it, and the disk may still have the old one. The write has the next sync make sure
/// of it, or fail. Where the byte can't be read or written back, the file isn't open.
///
/// A file that is missing is read as an empty one, of which there is nothing to sync; any other call of it fails. After a sync of the open file that failed
/// each call fails: the system may answer the next one as done though the bytes are lost. Before the file is open no byte
/// of it was changed, so what fails then can be tried again.
#[derive(Drop)]
pub struct FileDisk<P, F> {
    place: P,
    file: Option<F>,
    is_lost: bool,
    faults: u64,
}

impl<P: Place<F>, F: RawFile> FileDisk<P, F> {
    /// The disk whose file stands there. It isn't open yet, and nothing is counted.
    pub fn new(place: P) -> FileDisk<P, F>
        ensures place { result.place ≡ place }
        ensures lost { result.is_lost ≡ false }
        ensures faults { result.faults ≡ 0 }
    {
        FileDisk {
            place,
            file: None,
            is_lost: false,
            faults: 0,
        }
    }

    // Opens the file, unless it is open or missing. Where that fails it isn't open, or the disk is lost.
    #[tactic(auto, using(crate::proofs::FileLemmas::kept_here, crate::proofs::FileLemmas::still_lost))]
    fn make_ready(&mut self) -> io::Result<()>
        ensures kept { IsKept (option_map F.file_view self.old.file) (option_map F.file_view self.new.file) }
        ensures for_good { self.old.is_lost ≡ true → IsErr result }
        ensures closed { is_lost_after self.old.is_lost self.new.file result ≡ self.old.is_lost }
        ensures lost { self.new.is_lost ≡ self.old.is_lost }
        ensures place { self.new.place ≡ self.old.place }
        ensures faults { self.new.faults ≡ self.old.faults }
    {
        if self.is_lost {
            return Err(io::Error::from(ErrorKind::Other));
        }
        match &self.file {
            Some(_) => Ok(()),
            None => {
                self.file = written_back(self.place.open()?)?;
                Ok(())
            }
        }
    }

    #[tactic(auto, using(crate::proofs::FileLemmas::is_done, crate::proofs::FileLemmas::kept_then))]
    fn read_file(&mut self, at: u64, buf: &mut [u8]) -> io::Result<usize>
        ensures fits { IfOk result (λ n. n ≤ length buf.old) }
        ensures bytes { IfOk result (λ n.
            IsReadFrom n at (length buf.old) buf.new (option_map F.file_view self.new.file)) }
        ensures kept { IsKept (option_map F.file_view self.old.file) (option_map F.file_view self.new.file) }
        ensures for_good { self.old.is_lost ≡ true → IsErr result }
        ensures lost { self.new.is_lost ≡ self.old.is_lost }
        ensures place { self.new.place ≡ self.old.place }
        ensures faults { self.new.faults ≡ self.old.faults }
    {
        self.make_ready()?;
        match &mut self.file {
            Some(file) => read_through(file, at, buf),
            None => Ok(0),
        }
    }

    #[tactic(auto, using(crate::proofs::FileLemmas::is_done, crate::proofs::FileLemmas::kept_then))]
    fn write_file(&mut self, at: u64, bytes: &[u8]) -> io::Result<()>
        ensures bytes { OnOk result (IsDone (Lays at bytes.now)
            (option_map F.file_view self.old.file) (option_map F.file_view self.new.file)) }
        ensures for_good { self.old.is_lost ≡ true → IsErr result }
        ensures lost { self.new.is_lost ≡ self.old.is_lost }
        ensures place { self.new.place ≡ self.old.place }
        ensures faults { self.new.faults ≡ self.old.faults }
    {
        self.make_ready()?;
        match &mut self.file {
            Some(file) => write_through(file, at, bytes),
            None => Err(io::Error::from(ErrorKind::NotFound)),
        }
    }

    #[tactic(auto, using(crate::proofs::FileLemmas::is_done, crate::proofs::FileLemmas::kept_then))]
    fn cut_file(&mut self, len: u64) -> io::Result<()>
        ensures bytes { OnOk result (IsDone (Cuts len)
            (option_map F.file_view self.old.file) (option_map F.file_view self.new.file)) }
        ensures for_good { self.old.is_lost ≡ true → IsErr result }
        ensures lost { self.new.is_lost ≡ self.old.is_lost }
        ensures place { self.new.place ≡ self.old.place }
        ensures faults { self.new.faults ≡ self.old.faults }
    {
        self.make_ready()?;
        match &mut self.file {
            Some(file) => file.make_length(len),
            None => Err(io::Error::from(ErrorKind::NotFound)),
        }
    }

    // Syncs the file; where that fails, the disk is lost.
    #[tactic(auto, using(crate::proofs::FileLemmas::is_done, crate::proofs::FileLemmas::kept_then))]
    fn sync_file(&mut self) -> io::Result<()>
        ensures bytes { OnOk result (IsSynced
            (option_map F.file_view self.old.file) (option_map F.file_view self.new.file)) }
        ensures for_good { self.old.is_lost ≡ true → IsErr result }
        ensures lost { self.new.is_lost ≡ is_lost_after self.old.is_lost self.new.file result }
        ensures place { self.new.place ≡ self.old.place }
        ensures faults { self.new.faults ≡ self.old.faults }
    {
        self.make_ready()?;
        match &mut self.file {
            Some(file) => match file.sync() {
                Ok(()) => Ok(()),
                Err(fault) => {
                    self.is_lost = true;
                    Err(fault)
                }
            },
            None => Ok(()),
        }
    }

    // Counts a failure.
    fn fail(&mut self) -> Failed
        ensures rose { Rose self.old.faults self.new.faults }
        ensures is { self.new ≡ record self.old { faults = counted self.old.faults } }
    {
        self.faults = self.faults.saturating_add(1);
        Failed
    }
}

impl<P: Place<F>, F: RawFile> Disk for FileDisk<P, F> {
    ghost disk_view = { λ d. untold_disk d.faults };

    fn read(&mut self, at: u64, buf: &mut [u8]) -> Result<usize, Failed>
        ensures reads { Reads result at (length buf.old) buf.new (untold_disk self.old.faults)
            (untold_disk self.new.faults) }
        ensures bytes { IfOk result (λ n.
            IsReadFrom n at (length buf.old) buf.new (option_map F.file_view self.new.file)) }
        ensures kept { IsKept (option_map F.file_view self.old.file) (option_map F.file_view self.new.file) }
        ensures for_good { self.old.is_lost ≡ true → IsErr result }
        ensures lost { self.new.is_lost ≡ self.old.is_lost }
        ensures place { self.new.place ≡ self.old.place }
    {
        match self.read_file(at, buf) {
            Ok(count) => Ok(count),
            Err(_) => Err(self.fail()),
        }
    }

    fn write_at(&mut self, at: u64, bytes: &[u8]) -> Result<(), Failed>
        ensures changes { Changes result (written_at at bytes.now) (untold_disk self.old.faults)
            (untold_disk self.new.faults) }
        ensures bytes { OnOk result (IsDone (Lays at bytes.now)
            (option_map F.file_view self.old.file) (option_map F.file_view self.new.file)) }
        ensures for_good { self.old.is_lost ≡ true → IsErr result }
        ensures lost { self.new.is_lost ≡ self.old.is_lost }
        ensures place { self.new.place ≡ self.old.place }
    {
        match self.write_file(at, bytes) {
            Ok(()) => Ok(()),
            Err(_) => Err(self.fail()),
        }
    }

    fn cut(&mut self, len: u64) -> Result<(), Failed>
        ensures changes { Changes result (cut_at len) (untold_disk self.old.faults) (untold_disk self.new.faults) }
        ensures bytes { OnOk result (IsDone (Cuts len)
            (option_map F.file_view self.old.file) (option_map F.file_view self.new.file)) }
        ensures for_good { self.old.is_lost ≡ true → IsErr result }
        ensures lost { self.new.is_lost ≡ self.old.is_lost }
        ensures place { self.new.place ≡ self.old.place }
    {
        match self.cut_file(len) {
            Ok(()) => Ok(()),
            Err(_) => Err(self.fail()),
        }
    }

    fn sync(&mut self) -> Result<(), Failed>
        ensures syncs { Syncs result (untold_disk self.old.faults) (untold_disk self.new.faults) }
        ensures bytes { OnOk result (IsSynced
            (option_map F.file_view self.old.file) (option_map F.file_view self.new.file)) }
        ensures for_good { self.old.is_lost ≡ true → IsErr result }
        ensures lost { self.new.is_lost ≡ is_lost_after self.old.is_lost self.new.file result }
        ensures place { self.new.place ≡ self.old.place }
    {
        match self.sync_file() {
            Ok(()) => Ok(()),
            Err(_) => Err(self.fail()),
        }
    }

    fn doubt(&mut self)
        ensures doubts { Doubts (untold_disk self.old.faults) (untold_disk self.new.faults) }
        ensures lost { self.new.is_lost ≡ self.old.is_lost }
        ensures place { self.new.place ≡ self.old.place }
    {
        let _ = self.fail();
    }
}
