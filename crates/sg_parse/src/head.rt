// The facts at the head of a text.
ghost use Rattle.std.specs.Prelude.{◌≡◌, Bool, List, [], codes, true, false};
ghost use Rattle.sg_rules.specs.sg_lex.Lexeme.{Spelling as Named};
ghost use Rattle.sg_parse.specs.Grammar.Pieces.{mark, word};
ghost use Rattle.sg_parse.specs.Grammar.Inside.Forms.{comma, equals, open_brace, semicolon};
ghost use Rattle.sg_parse.specs.Grammar.Inside.States.{State, due, fact, first_end, fork, head0, in_newer, newer_end, newer_rest, start, statements, trees, want};
ghost use Rattle.sg_parse.specs.Inside.{number_of, version_of};
ghost use Rattle.sg_rules.specs.sg_lex.Inside.Automata.{read, Leads};

use crate::reader::{fixed, forked, mark, version, word_of};
use crate::tree::Facts;
use crate::words::Sort;
use sg_rules::{Newer, ParseError, Reader, Spelled};

/// The facts at the head of a text, of whichever version the text is.
pub fn facts<'a>(reader: &mut Reader<'a>) -> Result<Facts<'a>, ParseError>
    ensures { Leads trees (read trees start reader.old) result (λ facts. statements facts []) reader.new }
{
    opening(reader)?;
    if forked(reader, b"version")? {
        newer_facts(reader)
    } else {
        first_facts(reader)
    }
}

// What a text begins with.
fn opening(reader: &mut Reader<'_>) -> Result<(), ParseError>
    ensures { (k : State) → Leads trees (read trees (due (word (codes "service_global_info")) (due equals (due open_brace k))) reader.old) result (λ _. k) reader.new }
{
    fixed(reader, b"service_global_info")?;
    mark(reader, b'=')?;
    mark(reader, b'{')
}

// The facts of a text of version 1, and the end of its head.
fn first_facts<'a>(reader: &mut Reader<'a>) -> Result<Facts<'a>, ParseError>
    ensures { Leads trees (read trees (head0 first_end) reader.old) result (λ facts. statements facts []) reader.new }
{
    let shared = shared_facts(reader)?;
    end(reader)?;
    Ok(Facts {
        version: 1,
        service: shared.service,
        parent: shared.parent,
        close: shared.close,
        global: shared.global,
        block: shared.block,
        has_data: shared.has_data,
        resc_data: shared.resc_data,
        eager: false,
    })
}

// The number of a version after its word, the facts of a text of that version, and the end of its head.
fn newer_facts<'a>(reader: &mut Reader<'a>) -> Result<Facts<'a>, ParseError>
    ensures { Leads trees (read trees (newer_rest (head0 (newer_end 2)) (head0 (newer_end 3))) reader.old) result (λ facts. statements facts []) reader.new }
{
    let version = newer_version(reader)?;
    let shared = shared_facts(reader)?;
    let eager = recovery(reader)?;
    end(reader)?;
    Ok(Facts {
        version: number_of(version),
        service: shared.service,
        parent: shared.parent,
        close: shared.close,
        global: shared.global,
        block: shared.block,
        has_data: shared.has_data,
        resc_data: shared.resc_data,
        eager,
    })
}

// The number of a version after its word. What comes then is read as a text of that version has it.
fn newer_version(reader: &mut Reader<'_>) -> Result<Newer, ParseError>
    ensures { (two three : State) → Leads trees (read trees (newer_rest two three) reader.old) result (version_of two three) reader.new }
{
    mark(reader, b'=')?;
    let version = version(reader)?;
    mark(reader, b',')?;
    go_on_as(reader, version);
    Ok(version)
}

// Has what is to come as a text of this version has it, with the words that it and those before it keep.
fn go_on_as(reader: &mut Reader<'_>, version: Newer)
    ensures { (two three : State) → read trees (version_of (in_newer Newer.Second two) (in_newer Newer.Second (in_newer Newer.Third three)) version) reader.old
        ≡ read trees (version_of two three version) reader.new }
{
    reader.go_on_as(Newer::Second);
    match version {
        Newer::Second => {}
        Newer::Third => reader.go_on_as(Newer::Third),
    }
}

// The number of a version after the first.
fn number_of(version: Newer) -> u8
    ensures { result ≡ number_of version }
{
    match version {
        Newer::Second => 2,
        Newer::Third => 3,
    }
}

// The facts that texts of all versions have, as in `Facts`.
#[derive(Drop)]
struct SharedFacts<'a> {
    service: Spelled<'a>,
    parent: Spelled<'a>,
    close: Spelled<'a>,
    global: Spelled<'a>,
    block: Spelled<'a>,
    has_data: Spelled<'a>,
    resc_data: Spelled<'a>,
}

// The facts that texts of all versions have.
fn shared_facts<'a>(reader: &mut Reader<'a>) -> Result<SharedFacts<'a>, ParseError>
    ensures { (end : (a b c d e f g : Named) → State) → Leads trees (read trees (head0 end) reader.old) result
        (λ s. end s.service s.parent s.close s.global s.block s.has_data s.resc_data) reader.new }
{
    let service = fact(reader, b"service", Sort::Name)?;
    let parent = fact(reader, b"desc_has_parent", Sort::Parents)?;
    let close = fact(reader, b"desc_close", Sort::Closing)?;
    let global = fact(reader, b"desc_is_global", Sort::Flag)?;
    let block = fact(reader, b"desc_block", Sort::Flag)?;
    let has_data = fact(reader, b"desc_has_data", Sort::Flag)?;
    let resc_data = value(reader, b"resc_has_data", Sort::Flag)?;
    Ok(SharedFacts {
        service,
        parent,
        close,
        global,
        block,
        has_data,
        resc_data,
    })
}

// A fact with the comma after it.
fn fact<'a>(reader: &mut Reader<'a>, what: &[u8], sort: Sort) -> Result<Spelled<'a>, ParseError>
    ensures { (go : Named → State) → Leads trees (read trees (fact what.now sort comma go) reader.old) result go reader.new }
{
    let value = value(reader, what, sort)?;
    mark(reader, b',')?;
    Ok(value)
}

// A fact: its word, and its value of this sort.
fn value<'a>(reader: &mut Reader<'a>, what: &[u8], sort: Sort) -> Result<Spelled<'a>, ParseError>
    ensures { (go : Named → State) → Leads trees (read trees (due (word what.now) (due equals (want sort go))) reader.old) result go reader.new }
{
    fixed(reader, what)?;
    mark(reader, b'=')?;
    word_of(reader, sort)
}

// The last fact of a text of a version after the first: whether every live descriptor is rebuilt before any call is served.
fn recovery(reader: &mut Reader<'_>) -> Result<bool, ParseError>
    ensures { (s : Bool → State) → Leads trees
        (read trees (due comma (due (word (codes "desc_recover")) (due equals (fork (codes "eager") (s true) (due (word (codes "demand")) (s false)))))) reader.old)
        result s reader.new }
{
    mark(reader, b',')?;
    fixed(reader, b"desc_recover")?;
    mark(reader, b'=')?;
    if forked(reader, b"eager")? {
        return Ok(true);
    }
    fixed(reader, b"demand")?;
    Ok(false)
}

// The end of the head.
fn end(reader: &mut Reader<'_>) -> Result<(), ParseError>
    ensures { (k : State) → Leads trees (read trees (due (mark (codes "}")) (due semicolon k)) reader.old) result (λ _. k) reader.new }
{
    mark(reader, b'}')?;
    mark(reader, b';')
}
