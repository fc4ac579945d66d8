// The code of a refusal, as it is read.
ghost use Rattle.std.specs.Prelude.{◌≡◌, []};
ghost use Rattle.sg_facts.specs.sg_base.declared.reply.Code.{Code as Refusal};
ghost use Rattle.sg_entries.specs.declared.tree.WrittenEntry.{WrittenEntry as Entry};
ghost use Rattle.sg_entries.specs.Inside.CodeWords.{code_of, begins_code};
ghost use Rattle.sg_entries.specs.Inside.States.{coded};
ghost use Rattle.sg_entries.specs.Inside.Reads.{read, Ends};

use crate::line::Line;
use crate::syntax::EntrySyntax;
use sg_facts::Code;

/// Every code.
const CODES: [Code; 13] = [
    Code::NoDesc,
    Code::NoParent,
    Code::BadState,
    Code::HasChildren,
    Code::Full,
    Code::NotOwner,
    Code::Held,
    Code::Occupied,
    Code::NotFound,
    Code::Overflow,
    Code::Gap,
    Code::TooBig,
    Code::BadName,
];

/// The code whose word is the rest of the line.
#[tactic(auto, using(crate::proofs::ByByte::code_goes, crate::proofs::ByByte::code_stops, crate::proofs::ByByte::code_ends, crate::proofs::ByByte::no_code_ends))]
pub fn code(line: &Line<'_>) -> Result<Code, EntrySyntax>
    ensures ends { (k : Refusal → Entry) → Ends (read (coded [] k) line.now) result k }
{
    let word = line.rest();
    'bytes: for at in 0..word.len() {
        if !begins_code(&word[..at + 1]) {
            return Err(line.fault_after(at));
        }
    }
    match code_of(word) {
        Some(code) => Ok(code),
        None => Err(line.fault_after(word.len())),
    }
}

// Whether a word for a code begins with these bytes.
fn begins_code(bytes: &[u8]) -> bool
    ensures { result ≡ begins_code bytes.now }
{
    CODES.iter().any(|code| code.name().starts_with(bytes))
}

// The code whose word these bytes are.
fn code_of(bytes: &[u8]) -> Option<Code>
    ensures { result ≡ code_of bytes.now }
{
    CODES.iter().copied().find(|code| bytes == code.name())
}
