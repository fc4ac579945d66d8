// The texts of standard interfaces, and what `cost` prints of an interface and a script.
use sg_top::{MemSink, MemSource, NoMemory, ServiceKind, Status, serial};
use std::alloc::Global;
use test_interfaces::{EVENT, LOCK, MM, RAMFS, SCHED, TIMER};

/// What a command came to: its status and what it printed.
pub type Said = (Status, Vec<u8>);

// The most bytes that one read gives and one write takes.
const MOST_READ: usize = 8_192;

/// What `cost` says of an interface and a script.
pub fn costs(alloc: Global, interface: &[u8], script: &[u8]) -> Result<Said, NoMemory> {
    let mut input = Vec::from_slice(alloc, interface)?;
    input.extend_from_slice(b"%%\n")?;
    input.extend_from_slice(script)?;
    let mut words = Vec::new(alloc);
    words.push("cost".to_string(alloc)?)?;
    let mut source = MemSource::new(alloc, &input, MOST_READ, &[])?;
    let mut sink = MemSink::new(alloc, MOST_READ, &[])?;
    let answer = serial(alloc, &words, &mut source, &mut sink);
    Ok((answer.status, Vec::from_slice(alloc, sink.written())?))
}

/// The text of the standard interface of a service.
pub fn text_of(service: ServiceKind) -> &'static [u8] {
    match service {
        ServiceKind::Locks => LOCK,
        ServiceKind::Events => EVENT,
        ServiceKind::Pages => MM,
        ServiceKind::Files => RAMFS,
        ServiceKind::Threads => SCHED,
        ServiceKind::Timers => TIMER,
    }
}
