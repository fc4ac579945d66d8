// No boot of a generated script of each service needs more than its bound, and all boots together need what the load's line says.
use crate::asking::{costs, text_of};
use sg_top::Status::Done;
use sg_top::{Arg, NoMemory, Script, ScriptCall, ServiceKind, generate};
use std::alloc::Global;
use std::fmt::Write;
use std::process::Abort;
use std::test::Fail;

// A service, and the replayed calls of its load of 7.
type Load = (ServiceKind, u64);

// The counts of replays are those of two other programs.
static LOADS: [Load; 6] = [
    (ServiceKind::Locks, 579),
    (ServiceKind::Events, 594),
    (ServiceKind::Pages, 281),
    (ServiceKind::Files, 358),
    (ServiceKind::Threads, 453),
    (ServiceKind::Timers, 537),
];

// An argument, as it is written.
fn push_arg(out: &mut String, arg: &Arg) -> Result<(), NoMemory> {
    match arg {
        Arg::Number(number) => write!(out, "{number}")?,
        Arg::Text(text) => write!(out, "\"{}\"", str::from_utf8(text.bytes()).unwrap_or(""))?,
        Arg::Back(call) => write!(out, "${call}")?,
    }
    Ok(())
}

// A call, as it is written.
fn push_call(out: &mut String, service: ServiceKind, call: &ScriptCall) -> Result<(), NoMemory> {
    let shape = service.shape();
    let fun = shape.funs.get(usize::from(call.fun).saturating_sub(1));
    let name = fun.map_or("", |fun| str::from_utf8(fun.name).unwrap_or(""));
    write!(out, "{name}(")?;
    for (at, arg) in call.args.as_slice().iter().enumerate() {
        if at > 0 {
            write!(out, ", ")?;
        }
        push_arg(out, arg)?;
    }
    write!(out, ");\n")?;
    Ok(())
}

// Calls in braces, as they are written.
fn push_calls(
    out: &mut String,
    service: ServiceKind,
    calls: &[ScriptCall],
) -> Result<(), NoMemory> {
    write!(out, "{{\n")?;
    for call in calls {
        push_call(out, service, call)?;
    }
    write!(out, "}}\n")?;
    Ok(())
}

// A script without a schedule, as it is written.
fn written(alloc: Global, service: ServiceKind, script: &Script) -> Result<String, NoMemory> {
    let mut out = String::new(alloc);
    write!(out, "setup ")?;
    push_calls(&mut out, service, script.setup.as_slice())?;
    for (client, calls) in script.clients.as_slice() {
        write!(out, "client {client} ")?;
        push_calls(&mut out, service, calls.as_slice())?;
    }
    write!(out, "stop")?;
    for stop in script.stops.as_slice() {
        write!(out, " {stop}")?;
    }
    write!(out, ";\n")?;
    Ok(out)
}

// The number that stands after a word in a line.
fn number_after(line: &str, word: &str) -> Option<u64> {
    let (_, rest) = line.split_once(word)?;
    rest.split_whitespace().next()?.parse().ok()
}

// The replayed calls of all boots, where none needs more than its bound.
fn walks_within(text: &str) -> Option<u64> {
    let mut all = 0_u64;
    for line in text.lines() {
        if line.starts_with("boot ") {
            let walks = number_after(line, " walks ")?;
            if walks > number_after(line, " bound ")? {
                return None;
            }
            all = all.saturating_add(walks);
        }
    }
    Some(all)
}

// What a generated script costs is within the bounds, and as much as is known.
fn try_load(rt: &impl Abort, alloc: Global, load: &Load) -> Result<(), Fail> {
    let (service, replays) = load;
    let script = generate(alloc, *service, 7)?;
    let text = written(alloc, *service, &script)?;
    let (status, said) = costs(alloc, text_of(*service), text.as_bytes())?;
    assert_eq!(rt; status, Done, "{service:?}");
    let walks = walks_within(str::from_utf8(&said).unwrap_or(""));
    assert_eq!(rt; walks, Some(*replays), "{service:?}");
    Ok(())
}

#[test]
fn loads_are_within_their_bounds(rt: HostRuntime) -> Result<(), Fail> {
    for load in &LOADS {
        try_load(&rt, rt.alloc(), load)?;
    }
    Ok(())
}
