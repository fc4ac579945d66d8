// The lines that are said of a text, and those that refuse an input.
ghost use Rattle.std.specs.Prelude.{◌≡◌, codes, IfOk};
ghost use Rattle.sg_input.specs.Lines.{entries_kind_name, refused_line, script_kind_name};
ghost use Rattle.sg_input.specs.MultiInputs.{member_line};
ghost use Rattle.sg_input.specs.Verdicts.{refusal_name};
ghost use Rattle.sg_input.specs.Inside.Said.{accepted_line, run_line};

use crate::places::{column_of, line_of};
use crate::refusal::{RefusalKind, refusal_name};
use sg_entries::EntriesKind;
use sg_facts::{Bytes, NoMemory};
use sg_script::{ScriptFault, ScriptKind};
use std::alloc::Global;

/// The line of a text that is accepted, by its service's name.
pub fn accepted_line(alloc: Global, service: &[u8]) -> Result<Bytes, NoMemory>
    ensures { IfOk result (λ line. line ≡ accepted_line service.now) }
{
    let mut line = Bytes::from_slice(alloc, b"accepted ")?;
    line.extend_from_slice(service)?;
    line.push(b'\n')?;
    Ok(line)
}

/// The line of a text that is refused for a kind at a place, which is counted in bytes from 0.
pub fn refusal_line(
    alloc: Global,
    text: &[u8],
    kind: RefusalKind,
    at: usize,
) -> Result<Bytes, NoMemory>
    ensures { IfOk result (λ line. line ≡ refused_line (codes "interface refused at ") text.now at (refusal_name kind)) }
{
    interface_line(alloc, text, at, refusal_name(kind))
}

/// The line of a text that is refused at a place, which is counted in bytes from 0, by the name of what is wrong there.
pub fn interface_line(alloc: Global, text: &[u8], at: usize, name: &str) -> Result<Bytes, NoMemory>
    ensures { IfOk result (λ line. line ≡ refused_line (codes "interface refused at ") text.now at name.now) }
{
    let line = line_of(text, at);
    let column = column_of(text, at);
    let said = format!(in alloc; "interface refused at {line}:{column}: {name}\n")?;
    Ok(Bytes::from_vec(said.into_bytes()))
}

/// The line of the text of a number, counted from 1, that is refused at a place, by the name of what is wrong there.
pub fn member_line(
    alloc: Global,
    number: usize,
    text: &[u8],
    at: usize,
    name: &str,
) -> Result<Bytes, NoMemory>
    ensures { IfOk result (λ line. line ≡ member_line number text.now at name.now) }
{
    let line = line_of(text, at);
    let column = column_of(text, at);
    let said = format!(in alloc; "interface {number} refused at {line}:{column}: {name}\n")?;
    Ok(Bytes::from_vec(said.into_bytes()))
}

/// The line of an input without a line of `%%` alone.
pub const NO_DIVIDER: &[u8] = b"input refused: NoDivider\n";

/// The line of an input that is too long, or of which a part is.
pub const TOO_LONG: &[u8] = b"input refused: TooLong\n";

/// The line of a script that is refused for this fault.
pub fn script_line(alloc: Global, script: &[u8], fault: ScriptFault) -> Result<Bytes, NoMemory>
    ensures { IfOk result (λ line. line ≡ refused_line (codes "script refused at ") script.now fault.at (script_kind_name fault.kind)) }
{
    let line = line_of(script, fault.at);
    let column = column_of(script, fault.at);
    let kind = script_kind_name(fault.kind);
    let said = format!(in alloc; "script refused at {line}:{column}: {kind}\n")?;
    Ok(Bytes::from_vec(said.into_bytes()))
}

// The name of a kind of fault.
fn script_kind_name(kind: ScriptKind) -> &'static str
    ensures { result.now ≡ script_kind_name kind }
{
    match kind {
        ScriptKind::Syntax => "Syntax",
        ScriptKind::UnknownFunction => "UnknownFunction",
        ScriptKind::UnknownService => "UnknownService",
        ScriptKind::BadArgs => "BadArgs",
        ScriptKind::BadClient => "BadClient",
        ScriptKind::Twice => "Twice",
        ScriptKind::NotAscending => "NotAscending",
        ScriptKind::Blocking => "Blocking",
        ScriptKind::Limit => "Limit",
    }
}

/// The line of a printed run whose entries have a fault of a kind at a place, which is counted in bytes from 0.
pub fn run_line(alloc: Global, run: &[u8], kind: EntriesKind, at: usize) -> Result<Bytes, NoMemory>
    ensures { IfOk result (λ line. line ≡ run_line run.now kind at) }
{
    let line = line_of(run, at);
    let column = column_of(run, at);
    let kind = entries_kind_name(kind);
    let said = format!(in alloc; "run refused at {line}:{column}: {kind}\n")?;
    Ok(Bytes::from_vec(said.into_bytes()))
}

// The name of a kind of fault of entries.
fn entries_kind_name(kind: EntriesKind) -> &'static str
    ensures { result.now ≡ entries_kind_name kind }
{
    match kind {
        EntriesKind::Syntax => "Syntax",
        EntriesKind::UnknownFunction => "UnknownFunction",
        EntriesKind::BadArgs => "BadArgs",
        EntriesKind::BadClient => "BadClient",
        EntriesKind::Limit => "Limit",
    }
}
