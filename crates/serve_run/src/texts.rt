// What a run prints.
ghost use Rattle.std.specs.Prelude.{◌≡◌, ◌++◌, ℕ, IfOk, OnOk, decimal};
ghost use Rattle.mem_wire.specs.WireInMemory.{accounts_of, faults_in};
ghost use Rattle.serve_run.specs.Texts.{tally_text, change_lines, connection_line, connection_text, replay_text};

use mem_wire::SteadyWire;
use sd_value::NoMemory;
use serving_spec::Tally;
use std::alloc::Global;
use token_writer::put_number;

/// The lines that report the counts of a run, with those of the texts where these are to be told.
pub fn tally_text(alloc: Global, with_changes: bool, tally: &Tally) -> Result<Vec<u8>, NoMemory>
    ensures { IfOk result (λ text. text.items ≡ tally_text with_changes tally.now) }
{
    let mut text = Vec::new(alloc);
    push_tally(&mut text, with_changes, tally)?;
    Ok(text)
}

/// The text of a run over a wire in memory: each connection that was opened with the bytes that it took, and the counts. If
/// a send was refused memory there is no text.
pub fn replay_text(
    alloc: Global,
    wire: &SteadyWire,
    opened: &[u64],
    with_changes: bool,
    tally: &Tally,
) -> Result<Vec<u8>, NoMemory>
    ensures text { IfOk result (λ text. text.items
        ≡ replay_text (accounts_of wire.now) opened.now with_changes tally.now) }
    ensures whole { IfOk result (λ text. (number : ℕ) → faults_in wire.now number ≡ 0) }
{
    if wire.short() {
        return Err(NoMemory);
    }
    let mut text = Vec::new(alloc);
    for number in opened {
        push_connection(&mut text, *number, wire.taken(*number))?;
    }
    push_tally(&mut text, with_changes, tally)?;
    Ok(text)
}

/// The line of a connection, and the bytes that it took.
fn push_connection(text: &mut Vec<u8>, number: u64, bytes: &[u8]) -> Result<(), NoMemory>
    ensures { OnOk result (text.new.items ≡ text.old.items ++ connection_text number bytes.now) }
{
    push_line(text, number, bytes.len() as u64)?;
    text.extend_from_slice(bytes)?;
    text.extend_from_slice(b"\n")?;
    Ok(())
}

/// The line of a connection.
fn push_line(text: &mut Vec<u8>, number: u64, length: u64) -> Result<(), NoMemory>
    ensures { OnOk result (text.new.items ≡ text.old.items ++ connection_line number length) }
{
    push_number(text, b"connection ", number, b" ")?;
    push_number(text, b"", length, b"\n")?;
    Ok(())
}

fn push_tally(text: &mut Vec<u8>, with_changes: bool, tally: &Tally) -> Result<(), NoMemory>
    ensures { OnOk result (text.new.items
        ≡ text.old.items ++ tally_text with_changes tally.now) }
{
    push_number(text, b"connections ", tally.connections, b"\n")?;
    push_number(text, b"replies ", tally.replies, b"\n")?;
    push_number(text, b"hits ", tally.hits, b"\n")?;
    if with_changes {
        push_changes(text, tally)?;
    }
    Ok(())
}

/// The lines that count texts.
fn push_changes(text: &mut Vec<u8>, tally: &Tally) -> Result<(), NoMemory>
    ensures { OnOk result (text.new.items ≡ text.old.items ++ change_lines tally.now) }
{
    push_number(text, b"changes ", tally.changes, b"\n")?;
    push_number(text, b"refused ", tally.refused, b"\n")
}

/// A number between two texts.
fn push_number(text: &mut Vec<u8>, before: &[u8], number: u64, after: &[u8]) -> Result<(), NoMemory>
    ensures { OnOk result (text.new.items
        ≡ text.old.items ++ (before.now ++ decimal number ++ after.now)) }
{
    text.extend_from_slice(before)?;
    put_number(number as u128, text)?;
    text.extend_from_slice(after)?;
    Ok(())
}
