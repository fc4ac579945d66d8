// Plays, and whether they are judged legal.
use sg_top::{MemSink, MemSource, NoMemory, NoProgress, OpenGate, serial, superglue};
use std::alloc::Global;
use std::sync::Wait;
use std::test::Fail;
use std::thread::Threads;

/// The most bytes that one read gives and one write takes.
const MOST: usize = 4_096;

/// The points at which a service stops: one, two, or none; 0 stands for none.
pub type Points = (u32, u32);

/// An input: an interface, and a script with stops.
pub fn input_of(
    alloc: Global,
    interface: &[u8],
    script: &str,
    stops: Points,
) -> Result<Vec<u8>, NoMemory> {
    let text = match stops {
        (0, _) => format!(in alloc; "%%\n{script}\n")?,
        (point, 0) => format!(in alloc; "%%\n{script} stop {point};\n")?,
        (first, second) => format!(in alloc; "%%\n{script} stop {first} {second};\n")?,
    };
    let mut input = Vec::from_slice(alloc, interface)?;
    input.extend_from_slice(text.as_bytes())?;
    Ok(input)
}

// A list of one word.
fn one_word(alloc: Global, word: &str) -> Result<Vec<String>, NoMemory> {
    let mut words = Vec::new(alloc);
    words.push(word.to_string(alloc)?)?;
    Ok(words)
}

/// What a word and an input come to in one thread.
pub fn printed(alloc: Global, word: &str, input: &[u8]) -> Result<Vec<u8>, NoMemory> {
    let words = one_word(alloc, word)?;
    let mut source = MemSource::new(alloc, input, MOST, &[])?;
    let mut sink = MemSink::new(alloc, MOST, &[])?;
    drop(serial(alloc, &words, &mut source, &mut sink));
    Ok(Vec::from_slice(alloc, sink.written())?)
}

/// What `run` prints of an input.
pub fn shared<R: Threads + Wait + Sync>(
    rt: &R,
    alloc: Global,
    input: &[u8],
) -> Result<Vec<u8>, NoMemory> {
    let words = one_word(alloc, "run")?;
    let mut source = MemSource::new(alloc, input, MOST, &[])?;
    let mut sink = MemSink::new(alloc, MOST, &[])?;
    drop(superglue(
        rt,
        alloc,
        &words,
        &mut source,
        &mut sink,
        &OpenGate,
        &NoProgress,
    ));
    Ok(Vec::from_slice(alloc, sink.written())?)
}

/// The lines of a report that tell its entries: those before the ends of the clients.
pub fn entries_of(report: &[u8]) -> Result<&str, Fail> {
    let text = str::from_utf8(report).unwrap_or("");
    let (entries, _) = text.split_once("client ").ok_or("no ends")?;
    Ok(entries)
}

/// Whether a report under an interface is judged legal, and has entries.
pub fn is_legal(alloc: Global, interface: &[u8], report: &[u8]) -> Result<bool, NoMemory> {
    let mut input = Vec::from_slice(alloc, interface)?;
    input.extend_from_slice(b"%%\n")?;
    input.extend_from_slice(report)?;
    let said = printed(alloc, "verify", &input)?;
    Ok(said.starts_with(b"legal ") && said.as_slice() != b"legal 0\n".as_slice())
}

/// Whether the play of a script with stops is judged legal.
pub fn plays_legally(
    alloc: Global,
    interface: &[u8],
    script: &str,
    stops: Points,
) -> Result<bool, NoMemory> {
    let input = input_of(alloc, interface, script, stops)?;
    is_legal(alloc, interface, &printed(alloc, "sim", &input)?)
}
