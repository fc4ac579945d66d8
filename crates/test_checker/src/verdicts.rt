// What is said of a text, line by line.
use crate::shapes::standard_shapes;
use sg_input::{Bytes, Read, compiled, examine, verdict};
use std::alloc::Global;
use std::test::Fail;
use test_interfaces::{LOCK, SCHED, TIMER};

// Whether it is said that a text is accepted, by a line.
fn accepts(said: &Read<Bytes>, line: &[u8]) -> bool {
    match said {
        Read::Ready(said) => said.as_slice() == line,
        Read::Refused(_) => false,
    }
}

// Whether it is said that a text is refused, by a line.
fn refuses(said: &Read<Bytes>, line: &[u8]) -> bool {
    match said {
        Read::Ready(_) => false,
        Read::Refused(said) => said.as_slice() == line,
    }
}

// Whether a text is refused by a line, where it is asked whether it is accepted.
fn is_refused(alloc: Global, text: &[u8], line: &[u8]) -> Result<bool, Fail> {
    let said = verdict(alloc, text, &standard_shapes())?;
    Ok(refuses(&said, line))
}

// Whether a text is refused by a line, where its tables are asked for.
fn is_uncompiled(alloc: Global, text: &[u8], line: &[u8]) -> Result<bool, Fail> {
    let said = compiled(alloc, text, &standard_shapes())?;
    Ok(refuses(&said, line))
}

// Whether a text is accepted by a line.
fn is_accepted(alloc: Global, text: &[u8], line: &[u8]) -> Result<bool, Fail> {
    let said = verdict(alloc, text, &standard_shapes())?;
    Ok(accepts(&said, line))
}

// The name of the service of a text that is accepted.
fn service_of(alloc: Global, text: &[u8]) -> Result<Option<&'static [u8]>, Fail> {
    match examine(alloc, text, &standard_shapes())? {
        Read::Ready(accepted) => Ok(Some(accepted.interface().shape.name)),
        Read::Refused(_) => Ok(None),
    }
}

// The facts of a service at the head of a text.
const HEAD: &[u8] = b"service_global_info = {
    service = door,
    desc_has_parent = none,
    desc_close = refuse,
    desc_is_global = true,
    desc_block = true,
    desc_has_data = true,
    resc_has_data = false
};
";

// A text, and the line that refuses it.
static REFUSED: [(&[u8], &[u8]); 7] = [
    (b"", b"interface refused at 1:1: Syntax\n"),
    (b"\n", b"interface refused at 2:1: Syntax\n"),
    (
        b"service_global_info = {",
        b"interface refused at 1:24: Syntax\n",
    ),
    (
        b"service_global_info = #",
        b"interface refused at 1:23: Lex\n",
    ),
    (
        b"service_global_info =\n\n  #",
        b"interface refused at 3:3: Lex\n",
    ),
    (
        b"service_global_info =\r\n=",
        b"interface refused at 2:1: Syntax\n",
    ),
    (HEAD, b"interface refused at 2:15: UnknownService\n"),
];

#[test]
fn what_is_said_of_a_text(rt: HostRuntime) -> Result<(), Fail> {
    for (text, line) in &REFUSED {
        assert!(rt; is_refused(rt.alloc(), text, line)?);
        assert!(rt; is_uncompiled(rt.alloc(), text, line)?);
    }
    assert!(rt; is_accepted(rt.alloc(), LOCK, b"accepted lock\n")?);
    assert!(rt; is_accepted(rt.alloc(), SCHED, b"accepted sched\n")?);
    assert!(rt; is_accepted(rt.alloc(), TIMER, b"accepted timer\n")?);
    assert!(rt; service_of(rt.alloc(), LOCK)? == Some(b"lock".as_slice()));
    assert!(rt; service_of(rt.alloc(), HEAD)?.is_none());
    Ok(())
}
