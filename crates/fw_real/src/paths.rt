ghost use Rattle.std.specs.Prelude.{◌≡◌, None, IfSome};

use crate::{Reading, Timed};
use fw_outside::Files;
use std::rt::Files as FileSystem;
use std::{fs, str};

// A file that was opened, and by which path.
#[derive(Drop)]
struct Opened<'a, F> {
    file: F,
    path: &'a [u8],
}

// Opens the file of this path. That it is the file which stands there is the system's word.
fn open<'a, R: FileSystem>(system: &R, path: &'a [u8]) -> Option<Opened<'a, R::File>>
    ensures { IfSome result (λ opened. opened.path.now ≡ path.now) }
{
    let text = str::from_utf8(path).ok()?;
    let file = fs::open(system, text).ok()?;
    Some(Opened { file, path })
}

// The source of the file, which was opened by this path.
fn source_of<F>(opened: Opened<'_, F>, path: &[u8]) -> Reading<F>
    requires { opened.path.now ≡ path.now }
    ensures from { result.from ≡ opened.entry.file }
    ensures amount { result.amount ≡ 0 }
    ensures faults { result.faults ≡ 0 }
    ensures idles { result.idles ≡ 0 }
    ensures waits { result.waits ≡ 3600 }
    ensures waited { result.waited ≡ 0 }
{
    let Opened { file, path: _ } = opened;
    let _ = path;
    Reading::new(file)
}

/// The files of a file system, by their paths. A path that isn't UTF-8 is missing.
#[derive(Drop)]
pub struct Paths<R> {
    system: R,
    missing: u64,
    read_faults: u64,
    out: u64,
}

impl<R> Paths<R> {
    /// The files of this system. Nothing is counted yet, and no source is out.
    pub fn new(system: R) -> Paths<R>
        ensures system { result.system ≡ system }
        ensures missing { result.missing ≡ 0 }
        ensures read_faults { result.read_faults ≡ 0 }
        ensures out { result.out ≡ 0 }
    {
        Paths {
            system,
            missing: 0,
            read_faults: 0,
            out: 0,
        }
    }
}

impl<R: FileSystem + Drop> Files for Paths<R>
where
    R::File: Timed,
{
    type Src = Reading<R::File>;

    ghost files_view = { λ s. record {
      holds = None;
      asked = None;
      missing = s.missing;
      read_faults = s.read_faults;
      out
          = s.out;
    } };

    fn source(&mut self, name: &[u8]) -> Option<Reading<R::File>> {
        let opened = open(&self.system, name);
        match (opened, self.out.checked_add(1)) {
            (Some(opened), Some(out)) => {
                self.out = out;
                Some(source_of(opened, name))
            }
            _ => {
                self.missing = self.missing.saturating_add(1);
                None
            }
        }
    }

    fn back(&mut self, source: Reading<R::File>) {
        self.out = self.out.saturating_sub(1);
        if source.has_failed() {
            self.read_faults = self.read_faults.saturating_add(1);
        }
    }
}
