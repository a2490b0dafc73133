//! What is told of tables.
ghost use Rattle.std.specs.Prelude.{◌<◌};

use fw_memory::{Calls, MemSource};
use fw_types::{NoMemory, Octets};
use lines_of_rows::{Told, add, add_number, add_word, cut_word, number_of};
use netperm_table::{Line, Table, TableFault};
use std::alloc::Global;

fn tell_between(open: &[u8], text: &[u8], close: &[u8], out: &mut Told) {
    add(out, open);
    add(out, text);
    add(out, close);
}

// Tells a line: its number, each keyword before `|`, the attribute, and each word in brackets, or in quotes
// where it stood in quotes.
fn tell_line(line: &Line, out: &mut Told) {
    add(out, decimal(line.number).as_slice());
    add(out, b"<");
    for keyword in line.keywords.as_slice() {
        add(out, keyword.bytes());
        add(out, b"|");
    }
    add(out, line.attribute.bytes());
    for word in line.words.as_slice() {
        if word.quoted {
            tell_between(b"\"", word.text.bytes(), b"\"", out);
        } else {
            tell_between(b"[", word.text.bytes(), b"]", out);
        }
    }
    add(out, b">");
}

/// The table of the text, in pieces of so many bytes, from a source that fails and is idle at these calls.
pub(crate) fn read_table(
    alloc: Global,
    text: &[u8],
    piece: usize,
    fails: Calls,
    idle: Calls,
) -> Result<Table, TableFault>
    requires { 0 < piece }
{
    let mut source = MemSource::new(Octets::copy(alloc, text)?, piece, fails, idle);
    Table::read(alloc, &mut source)
}

// Tells what the text is read as, in pieces of so many bytes.
fn tell_in_pieces(alloc: Global, text: &[u8], piece: usize, out: &mut Told)
    requires { 0 < piece }
{
    match read_table(alloc, text, piece, Calls::none(), Calls::none()) {
        Ok(table) => {
            for line in table.lines() {
                tell_line(line, out);
            }
        }
        Err(fault) => {
            add(out, b"!");
            tell_fault_of(fault, out);
        }
    }
}

fn tell_fault_of(fault: TableFault, out: &mut Told) {
    match fault.line() {
        Some(line) => add(out, decimal(line).as_slice()),
        None => add(out, b"-"),
    }
    add_word(out, fault.why());
}

fn decimal(number: u32) -> Told {
    let mut out = Told::new();
    add_number(&mut out, u64::from(number));
    out
}

/// `table TEXT => LINES`, or `!` with the line at fault and what is wrong with it; in pieces of any size.
pub(crate) fn tell_table(alloc: Global, asked: &[u8], out: &mut Told) -> Result<(), NoMemory> {
    tell_in_pieces(alloc, asked, 1, out);
    for piece in [2, 3, 7, 4096] {
        let mut other = Told::new();
        tell_in_pieces(alloc, asked, piece, &mut other);
        if other.as_slice() != out.as_slice() {
            add(out, b" but otherwise in pieces of");
            add_number(out, piece as u64);
        }
    }
    Ok(())
}

fn tell_read(read: Result<Table, TableFault>, out: &mut Told) {
    match read {
        Ok(_) => add(out, b"a table"),
        Err(TableFault::ReadFault) => add(out, b"no table"),
        Err(fault) => tell_fault_of(fault, out),
    }
}

/// `fails CALL TEXT => no table`: the source fails at the call.
pub(crate) fn tell_broken(alloc: Global, asked: &[u8], out: &mut Told) -> Result<(), NoMemory> {
    let (call, text) = cut_word(asked);
    let fails = Calls::of(alloc, &[number_of(call)])?;
    tell_read(read_table(alloc, text, 7, fails, Calls::none()), out);
    Ok(())
}

/// `idles CALL TEXT => no table`: the source is idle from the call on.
pub(crate) fn tell_idle(alloc: Global, asked: &[u8], out: &mut Told) -> Result<(), NoMemory> {
    let (call, text) = cut_word(asked);
    let idle = Calls::onward(number_of(call));
    tell_read(read_table(alloc, text, 7, Calls::none(), idle), out);
    Ok(())
}

fn fault_of(kind: &[u8], line: u32) -> Option<TableFault> {
    match kind {
        b"long-line" => Some(TableFault::LongLine { line }),
        b"nul-byte" => Some(TableFault::NulByte { line }),
        b"no-colon" => Some(TableFault::NoColon { line }),
        b"no-keyword" => Some(TableFault::NoKeyword { line }),
        b"open-quote" => Some(TableFault::OpenQuote { line }),
        b"no-attribute" => Some(TableFault::NoAttribute { line }),
        b"many-lines" => Some(TableFault::ManyLines),
        b"read-fault" => Some(TableFault::ReadFault),
        b"no-memory" => Some(TableFault::NoMemory),
        _ => None,
    }
}

/// `fault KIND LINE => LINE TEXT`.
pub(crate) fn tell_fault(asked: &[u8], out: &mut Told) {
    let (kind, line) = cut_word(asked);
    let line = number_of(line).min(65536) as u32;
    match fault_of(kind, line) {
        Some(fault) => tell_fault_of(fault, out),
        None => add(out, b"no such fault"),
    }
}
