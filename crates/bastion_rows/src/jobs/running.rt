//! A run of a command that needs no table.

use crate::world::{Devices, Ended, files_of, no_server, nobody, run_over};
use fw_memory::{Calls, MemDisk, MemSink};
use fw_types::{NoMemory, Octets};
use std::alloc::Global;
use std::thread::Threads;

// A table that lets net 10 in to each service.
const TABLE: &[u8] = b"\
netacl-in.telnetd: permit-hosts 10.* -exec /usr/libexec/telnetd
tn-gw: permit-hosts 10.*
plug-gw: port 119 10.* -plug-to 198.6.73.6
authsrv: permit-hosts 10.*
";

// What a run is given beside its disks: this table, and nobody who says anything. The output refuses these calls.
fn devices_of(alloc: Global, table: &[u8], refuses: Calls) -> Result<Devices, NoMemory> {
    let table = Octets::copy(alloc, table)?;
    let files = files_of(alloc, table, 64, Calls::none())?;
    let input = nobody(alloc)?;
    let output = MemSink::new(alloc, 1024, refuses)?;
    let logs = MemSink::new(alloc, 1024, Calls::none())?;
    let dialer = no_server(alloc)?;
    Ok(Devices {
        files,
        input,
        output,
        logs,
        dialer,
    })
}

/// Runs a command line over these disks, of which there are at most 64. The output refuses these calls.
pub(crate) fn run_on<H: Threads + Sync>(
    threads: &H,
    alloc: Global,
    line: &[u8],
    disks: Vec<MemDisk>,
    refuses: Calls,
) -> Result<Ended, NoMemory> {
    let devices = devices_of(alloc, TABLE, refuses)?;
    match run_over(threads, alloc, line, devices, disks, Vec::new(alloc))? {
        Some(ended) => Ok(ended),
        None => Err(NoMemory),
    }
}
