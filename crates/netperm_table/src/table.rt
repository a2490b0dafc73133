ghost use Rattle.std.specs.Prelude.{◌≡◌, ◌<◌, ◌⊎◌, false, length, IfOk, IfErr, OnOk, OnErr, MatchOption, Err};
ghost use Rattle.fw_outside.specs.FilesView.{has_failed};
ghost use Rattle.fw_outside.specs.SourceView.{Broke, Came, CameToEnd, Idled};
ghost use Rattle.netperm_table.specs.Taking.{AreLinesOf, IsFaultOf, SourceAfterRead, TookToFault, TookAll, is_read_fault};

use crate::line::Line;
use crate::reader::Reader;
use crate::table_fault::TableFault;
use fw_outside::{Got, Source};
use std::alloc::Global;
use std::marker::Model;

/// A permission table: its lines in order, without those that are skipped.
#[derive(Drop)]
pub struct Table {
    lines: Vec<Line>,
}

impl Model for Table {
    ghost use Rattle.std.specs.Prelude.{List};
    ghost use Rattle.netperm_table.specs.declared.line.Line.{Line};

    ghost Value = { List Line };

    ghost view = { λ table. table.lines.items };
}

// The next piece: how many bytes of the buffer it has, or nothing at the end.
fn next_piece<S: Source>(from: &mut S, buffer: &mut [u8]) -> Result<Option<usize>, TableFault>
    requires { 0 < length buffer.old }
    ensures ok { IfOk result (λ piece. MatchOption piece (CameToEnd (S.source_view from.old) (S.source_view from.new))
        (λ n. Came n buffer.new (S.source_view from.old) (S.source_view from.new))) }
    ensures fault { IfErr result (λ e. e ≡ TableFault.ReadFault) }
    ensures stopped { OnErr result (Broke (S.source_view from.old) (S.source_view from.new) ⊎
        Idled (S.source_view from.old) (S.source_view from.new)) }
{
    match from.take(buffer) {
        Ok(Got::Bytes(count)) => Ok(Some(count)),
        Ok(Got::End) => Ok(None),
        Ok(Got::Idle) | Err(_) => Err(TableFault::ReadFault),
    }
}

// The lines of a table, read to the end of its source or to its first line that can't be read.
fn read_lines<S: Source>(alloc: Global, from: &mut S) -> Result<Vec<Line>, TableFault>
    ensures lines { IfOk result (λ lines. AreLinesOf (S.source_view from.old).left lines.items) }
    ensures fault { IfErr result (λ e. IsFaultOf (S.source_view from.old).left e) }
    ensures end { OnOk result (TookAll (S.source_view from.old) (S.source_view from.new)) }
    ensures source { IfErr result (λ e. SourceAfterRead (Err e) (S.source_view from.old) (S.source_view from.new)) }
    ensures stops { IfErr result (λ e. TookToFault e (S.source_view from.old) (S.source_view from.new)) }
{
    let mut reader = Reader::new(alloc);
    let mut buffer = [0; 4096];
    while let Some(count) = next_piece(from, &mut buffer)? {
        reader.feed(alloc, &buffer[..count])?;
    }
    reader.finish(alloc)
}

impl Table {
    /// Reads a table to the end of its source, or to its first line that can't be read, which is the fault then.
    ///
    /// # Errors
    ///
    /// The fault of the first line that fails a test; `ManyLines` where that is the 65,536th line; `ReadFault` where
    /// the source failed or nothing came in time; `NoMemory`.
    pub fn read<S: Source>(alloc: Global, from: &mut S) -> Result<Table, TableFault>
        ensures lines { IfOk result (λ table. AreLinesOf (S.source_view from.old).left table) }
        ensures fault { IfErr result (λ e. IsFaultOf (S.source_view from.old).left e) }
        ensures source { SourceAfterRead result (S.source_view from.old) (S.source_view from.new) }
        ensures stops { IfErr result (λ e. TookToFault e (S.source_view from.old) (S.source_view from.new)) }
        ensures failed { has_failed (S.source_view from.old) ≡ false →
            has_failed (S.source_view from.new) ≡ is_read_fault result }
    {
        match read_lines(alloc, from) {
            Ok(lines) => Ok(Table { lines }),
            Err(fault) => Err(fault),
        }
    }

    /// The lines, in order.
    pub fn lines(&self) -> &[Line]
        ensures { result.now ≡ self.now }
    {
        self.lines.as_slice()
    }
}
