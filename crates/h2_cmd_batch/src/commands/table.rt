//! The program `table`: changes a dynamic table by the lines of its input (RFC 7541, 2.3.2 and 4). Definitions:
//! `specs/TableProgram.antt`.

ghost use Rattle.std.specs.Prelude.{◌≡◌, ◌⊎◌, false, option_map, IfOk, IfErr, OnOk};
ghost use Rattle.std.specs.List.{concat};
ghost use Rattle.std.specs.Io.KnownBytes.{Appends};
ghost use Rattle.h2_cmd_batch.specs.Commands.{asked_by};
ghost use Rattle.h2_spec.specs.Hpack.DynamicTable.{insert};
ghost use Rattle.h2_spec.specs.Hpack.Field.{field};
ghost use Rattle.h2_cmd_batch.specs.Faults.{fault_line};
ghost use Rattle.h2_cmd_batch.specs.TableProgram.{behind_line, command_of, counts_line, first_line, lines_of, obeyed, printed_of, printed_parts, table_parts, table_text};
ghost use Rattle.h2_cmd_batch.specs.TableReplies.{reply_text};
ghost use Rattle.h2_cmd_batch.specs.Each.{WritesSome, not_written};
ghost use Rattle.h2_cmd_batch.specs.Printing.{OrCutShort, done};
ghost use Rattle.h2_cmd_batch.specs.declared.commands.each.PrintFault.TheVariants.{Fault, NotWritten};
ghost use Rattle.h2_cmd_batch.specs.declared.fault.BenchFault.TheVariants.{NoMemory};

use crate::commands::each::{PrintFault, write_text};
use crate::fault::BenchFault;
use h2_cmd_messages::{Reasons, TableReasons};
use h2_cmd_play::{place_of, text_before, text_from};
use h2_conn_view::show::EntriesText;
use h2_io::{DeviceFault, Number, Output, Text, texts};
use h2_script::number_at;
use h2_table::DynTable;
use std::alloc::{AllocError, Allocator, Global};

/// What a line asks for.
#[derive(Clone, Copy)]
pub enum TableCommand<'a> {
    /// Puts a field of this name and this value in the table.
    Add(&'a [u8], &'a [u8]),
    /// Gives the table this maximum.
    Max(u32),
}

/// What a line asks for; `None` where it is no command.
fn command_of(line: &[u8]) -> Option<TableCommand<'_>>
    ensures { option_map asked_by result ≡ command_of line.now }
{
    if let Some(rest) = line.strip_prefix(b"add ".as_slice()) {
        let at = place_of(rest, b' ')?;
        return Some(TableCommand::Add(text_before(rest, at), text_from(rest, at + 1)));
    }
    let rest = line.strip_prefix(b"max ".as_slice())?;
    match number_at(u32::MAX, rest) {
        Some(number) => Some(TableCommand::Max(number)),
        None => None,
    }
}

/// The line of how many entries a table has, what they count, and its maximum.
#[derive(Clone, Copy)]
struct CountsLine<'t>(&'t DynTable<Global>);

#[tactic(auto, unfolding(crate::specs::TableProgram::counts_line))]
impl Text for CountsLine<'_> {
    ghost text = { λ l. counts_line l.0.now.table };

    fn write_to<O: Output>(&self, output: &mut O) -> Result<(), DeviceFault> {
        let count = Number(self.0.len() as u64);
        let size = Number(self.0.size() as u64);
        let max = Number(u64::from(self.0.max()));
        texts!(count, " ", size, " ", max, "\n").write_to(output)
    }
}

/// The line of a fault, by its number.
#[derive(Clone, Copy)]
struct TableFaultLine(u8);

#[tactic(auto, unfolding(crate::specs::Faults::fault_line))]
impl Text for TableFaultLine {
    ghost text = { λ l. fault_line l.0 };

    fn write_to<O: Output>(&self, output: &mut O) -> Result<(), DeviceFault> {
        texts!("fault ", Number(u64::from(self.0)), "\n").write_to(output)
    }
}

/// What is printed for a line.
#[derive(Clone, Copy)]
pub enum TableReply {
    /// What the table counts now.
    Counts,
    /// The number of a fault.
    Refused(u8),
}

/// The reply to a line that asked for a change of this table.
#[derive(Clone, Copy)]
struct TableReplyText<'t> {
    reply: TableReply,
    /// The table after the line.
    table: &'t DynTable<Global>,
}

impl Text for TableReplyText<'_> {
    ghost text = { λ r. reply_text r.table.now r.reply };

    fn write_to<O: Output>(&self, output: &mut O) -> Result<(), DeviceFault> {
        match self.reply {
            TableReply::Counts => CountsLine(self.table).write_to(output),
            TableReply::Refused(fault) => TableFaultLine(fault).write_to(output),
        }
    }
}

/// Enters a copy of this field.
fn add<A: Allocator + Copy>(
    table: &mut DynTable<A>,
    name: &[u8],
    value: &[u8],
    alloc: A,
) -> Result<(), AllocError>
    ensures { OnOk result (table.new ≡ record table.old { table = insert table.old.table (field name.now value.now) }) }
{
    let name = Vec::from_slice(alloc, name)?;
    let value = Vec::from_slice(alloc, value)?;
    table.insert(name, value);
    Ok(())
}

/// Does what a line asks for; `AllocError` where memory is refused. The reasons say why a line is refused.
fn obey(
    alloc: Global,
    table: &mut DynTable<Global>,
    line: &[u8],
    reasons: &mut TableReasons<'_, '_>,
) -> Result<TableReply, AllocError>
    ensures table { OnOk result (table.new ≡ obeyed table.old (command_of line.now)) }
    ensures reply { IfOk result (λ reply. reply_text table.new reply ≡ printed_of table.old (command_of line.now)) }
{
    match command_of(line) {
        Some(TableCommand::Add(name, value)) => {
            add(table, name, value, alloc)?;
            Ok(TableReply::Counts)
        }
        Some(TableCommand::Max(max)) => match table.set_max(u64::from(max)) {
            Ok(()) => Ok(TableReply::Counts),
            Err(fault) => {
                reasons.refuse(line, Some(table.limit()));
                Ok(TableReply::Refused(fault.number()))
            }
        },
        None => {
            reasons.refuse(line, None);
            Ok(TableReply::Refused(BenchFault::BadCommand.number()))
        }
    }
}

/// Does what a line asks for, and writes what is printed for it.
///
/// `Fault` where memory is refused: nothing is written. `NotWritten` where the output failed.
fn write_line<O: Output>(
    alloc: Global,
    table: &mut DynTable<Global>,
    line: &[u8],
    output: &mut O,
    reasons: &mut TableReasons<'_, '_>,
) -> Result<(), PrintFault>
    requires { O.has_failed output.old ≡ false }
    ensures table { OnOk result (table.new ≡ obeyed table.old (command_of line.now)) }
    ensures octets { OnOk result (Appends (O.written output.old) (O.written output.new) (printed_of table.old (command_of line.now))) }
    ensures err { IfErr result (λ why. (why ≡ NotWritten) ⊎ ((why ≡ Fault NoMemory) × (O.written output.new ≡ O.written output.old))) }
    ensures flag { O.has_failed output.new ≡ not_written result }
    ensures name { O.name output.new ≡ O.name output.old }
{
    reasons.next();
    match obey(alloc, table, line, reasons) {
        Ok(reply) => write_text(output, &TableReplyText { reply, table }),
        Err(_) => Err(PrintFault::Fault(BenchFault::NoMemory)),
    }
}

/// The first line, without its line feed, and what follows it.
fn first_line(text: &[u8]) -> (&[u8], &[u8])
    ensures { (result.0.now ≡ first_line text.now) × (result.1.now ≡ behind_line text.now) }
{
    match place_of(text, b'\n') {
        Some(at) => (text_before(text, at), text_from(text, at + 1)),
        None => (text, text_from(text, text.len())),
    }
}

/// Does what each line asks for, and writes what is printed for it; then the entries, the newest first.
///
/// `Fault` where memory is refused: what is printed for some first lines was written. `NotWritten` where the output
/// failed.
fn write_lines<O: Output>(
    alloc: Global,
    table: &mut DynTable<Global>,
    input: &[u8],
    output: &mut O,
    reasons: &mut Reasons<'_>,
) -> Result<(), PrintFault>
    requires { O.has_failed output.old ≡ false }
    ensures printed { O.has_failed output.new ≡ false → let parts = printed_parts table.old (lines_of input.now) in
        WritesSome (OrCutShort parts (done (concat parts))) result (O.written output.old) (O.written output.new) }
    ensures flag { O.has_failed output.new ≡ not_written result }
    ensures name { O.name output.new ≡ O.name output.old }
{
    let mut reasons = TableReasons::new(reasons);
    let mut rest = input;
    while !rest.is_empty() {
        let (line, more) = first_line(rest);
        write_line(alloc, table, line, output, &mut reasons)?;
        rest = more;
    }
    reasons.end();
    write_text(output, &EntriesText(table))
}

/// Writes what `table` prints: an empty dynamic table of this limit and maximum is changed by each line of the input.
///
/// A line is `add NAME VALUE`, where NAME has no space, or `max N`; it prints the number of entries, what they count
/// and the maximum, or the line of its fault, which the reasons explain: 3 for a maximum above the limit, 27 where it is no
/// command. At the end the entries are printed.
///
/// `Fault` where memory is refused: what is printed for some first lines was written. `NotWritten` where the output
/// failed.
pub fn write_table<O: Output>(
    alloc: Global,
    limit: u32,
    input: &[u8],
    output: &mut O,
    reasons: &mut Reasons<'_>,
) -> Result<(), PrintFault>
    requires { O.has_failed output.old ≡ false }
    ensures printed { O.has_failed output.new ≡ false
        → WritesSome (OrCutShort (table_parts limit input.now) (done (table_text limit input.now)))
        result (O.written output.old) (O.written output.new) }
    ensures flag { O.has_failed output.new ≡ not_written result }
    ensures name { O.name output.new ≡ O.name output.old }
{
    match DynTable::new(alloc, limit) {
        Ok(mut table) => write_lines(alloc, &mut table, input, output, reasons),
        Err(_) => Err(PrintFault::Fault(BenchFault::NoMemory)),
    }
}
