//! The kinds of row.

use crate::clocks::{tell_clock, tell_now, tell_now_seconds, tell_salts};
use crate::disks::{tell_disks, tell_halting};
use crate::records::tell_records;
use crate::streams::tell_streams;
use crate::uneven::{tell_uneven_sink, tell_uneven_source};
use fw_types::NoMemory;
use lines_of_rows::{Rows, Told, add};
use std::alloc::Global;

/// Knows the kinds of row.
#[derive(Drop)]
pub(crate) struct Kinds {
    pub(crate) rt: HostRuntime,
}

impl Rows for Kinds {
    fn tell(
        &mut self,
        _alloc: Global,
        kind: &str,
        asked: &[u8],
        out: &mut Told,
    ) -> Result<(), NoMemory> {
        match kind {
            "streams" => tell_streams(self.rt, asked, out),
            "uneven-source" => tell_uneven_source(asked, out),
            "uneven-sink" => tell_uneven_sink(asked, out),
            "clock" => tell_clock(self.rt, out),
            "now" => tell_now(asked, out),
            "now-seconds" => tell_now_seconds(asked, out),
            "salts" => tell_salts(&self.rt, out),
            "disks" => tell_disks(self.rt, asked, out),
            "halting" => tell_halting(asked, out),
            "records" => tell_records(self.rt, asked, out),
            _ => add(out, b"no such kind"),
        }
        Ok(())
    }
}
