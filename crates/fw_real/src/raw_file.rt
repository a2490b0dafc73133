ghost use Rattle.std.specs.Prelude.{◌≡◌, length, take, Option, None, IfOk, IfErr, OnOk};
ghost use Rattle.std.specs.Io.{ReadsAtMost, WritesAtMost};
ghost use Rattle.std.specs.IoError.{error_kind};
ghost use Rattle.fw_real.specs.FileView.{FileView, Cuts, Lays, ReadsSome, Settles};

use std::fs::File;
use std::io::{self, ErrorKind};
use std::os::unix::fs::FileExt;

/// An open file as a disk uses it. A read or a write may move fewer bytes than were asked for, none among them, and a
/// signal may interrupt it: then it did nothing.
pub trait RawFile: Drop {
    /// The bytes as a read gives them and those of the last sync, where the file tells them. A file of the system tells
    /// nothing.
    ghost file_view: { Self → Option FileView };

    /// Reads bytes that stand from a place on: none at the end or past it.
    fn read_some(&mut self, at: u64, buf: &mut [u8]) -> io::Result<usize>
        ensures bound { ReadsAtMost result buf.new }
        ensures bytes { IfOk result (λ n. ReadsSome n at (length buf.old) buf.new (file_view self.old)) }
        ensures same { file_view self.new ≡ file_view self.old };

    /// Writes the first bytes from a place on.
    fn write_some(&mut self, at: u64, bytes: &[u8]) -> io::Result<usize>
        ensures bound { WritesAtMost result bytes.now }
        ensures bytes { IfOk result (λ n. Lays at (take n bytes.now) (file_view self.old) (file_view self.new)) }
        ensures none { IfErr result (λ e. error_kind e ≡ ErrorKind.Interrupted → file_view self.new ≡ file_view self.old) };

    /// Makes the file so long.
    fn make_length(&mut self, len: u64) -> io::Result<()>
        ensures { OnOk result (Cuts len (file_view self.old) (file_view self.new)) };

    /// Asks that a crash leave the bytes as read.
    fn sync(&mut self) -> io::Result<()>
        ensures { OnOk result (Settles (file_view self.old) (file_view self.new)) };
}

impl RawFile for File {
    ghost file_view = { λ file. None };

    fn read_some(&mut self, at: u64, buf: &mut [u8]) -> io::Result<usize> {
        self.read_at(buf, at)
    }

    fn write_some(&mut self, at: u64, bytes: &[u8]) -> io::Result<usize> {
        self.write_at(bytes, at)
    }

    fn make_length(&mut self, len: u64) -> io::Result<()> {
        self.set_len(len)
    }

    fn sync(&mut self) -> io::Result<()> {
        self.sync_all()
    }
}
