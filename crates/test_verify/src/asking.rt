// Inputs of an interface and a printed run, and what is said of them.
use sg_top::{MemSink, MemSource, NoMemory, NoProgress, OpenGate, Status, serial, superglue};
use std::alloc::{AllocError, Global};
use std::sync::Wait;
use std::thread::Threads;

/// What a command came to: its status and what it printed.
pub type Said = (Status, Vec<u8>);

/// The line that divides an input.
const DIVIDER: &[u8] = b"%%\n";

// The most bytes that one read gives and one write takes.
const MOST_READ: usize = 8_192;

/// An interface, the divider and a second text.
pub fn input_of(alloc: Global, interface: &[u8], second: &[u8]) -> Result<Vec<u8>, AllocError> {
    let mut bytes = Vec::from_slice(alloc, interface)?;
    bytes.extend_from_slice(DIVIDER)?;
    bytes.extend_from_slice(second)?;
    Ok(bytes)
}

// Words that stand in one line.
fn words_of(alloc: Global, line: &str) -> Result<Vec<String>, AllocError> {
    let mut words = Vec::new(alloc);
    for word in line.split_whitespace() {
        words.push(word.to_string(alloc)?)?;
    }
    Ok(words)
}

/// What words say of an interface and a second text.
pub fn ask(alloc: Global, words: &str, interface: &[u8], second: &[u8]) -> Result<Said, NoMemory> {
    let words = words_of(alloc, words)?;
    let input = input_of(alloc, interface, second)?;
    let mut source = MemSource::new(alloc, &input, MOST_READ, &[])?;
    let mut sink = MemSink::new(alloc, MOST_READ, &[])?;
    let answer = serial(alloc, &words, &mut source, &mut sink);
    Ok((answer.status, Vec::from_slice(alloc, sink.written())?))
}

/// What words print of an interface and a script that is played with a thread for each client.
pub fn ask_threads<R: Threads + Wait + Sync>(
    rt: &R,
    alloc: Global,
    words: &str,
    interface: &[u8],
    script: &[u8],
) -> Result<Vec<u8>, NoMemory> {
    let words = words_of(alloc, words)?;
    let input = input_of(alloc, interface, script)?;
    let mut source = MemSource::new(alloc, &input, MOST_READ, &[])?;
    let mut sink = MemSink::new(alloc, MOST_READ, &[])?;
    superglue(
        rt,
        alloc,
        &words,
        &mut source,
        &mut sink,
        &OpenGate,
        &NoProgress,
    );
    Ok(Vec::from_slice(alloc, sink.written())?)
}

/// What `verify` says of a printed run.
pub fn verified(alloc: Global, interface: &[u8], run: &[u8]) -> Result<Said, NoMemory> {
    ask(alloc, "verify", interface, run)
}

/// Whether `verify` says this of a printed run.
pub fn is_said(
    alloc: Global,
    interface: &[u8],
    run: &[u8],
    status: Status,
    line: &str,
) -> Result<bool, NoMemory> {
    let said = verified(alloc, interface, run)?;
    Ok(said.0 == status && said.1.as_slice() == line.as_bytes())
}
