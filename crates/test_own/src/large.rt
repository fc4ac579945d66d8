// Texts at the limits, and past them.
use crate::cases::{Answer, DATA, PLAIN, VERSION_3, answer};
use sg_shape::{MOST_PARAMS, MOST_RULES, ShapeFaultKind};
use std::alloc::{AllocError, Global};
use std::test::Fail;

// A text with as many functions as are asked for, and the place of the name of the last.
fn functions(alloc: Global, count: u16) -> Result<(Vec<u8>, usize), AllocError> {
    let mut text = Vec::new(alloc);
    text.extend_from_slice(PLAIN.as_bytes())?;
    let mut last = 0;
    for number in 0..count {
        text.extend_from_slice(b"int ")?;
        last = text.len();
        let line = format!(in alloc; "f{number}(spdid_t s, long desc(d));\n")?;
        text.extend_from_slice(line.as_bytes())?;
    }
    Ok((text, last))
}

// A text with a function of as many parameters as are asked for, the caller and the descriptor among them, and the place of its name.
fn parameters(alloc: Global, count: usize) -> Result<(Vec<u8>, usize), AllocError> {
    let mut text = Vec::new(alloc);
    text.extend_from_slice(PLAIN.as_bytes())?;
    text.extend_from_slice(b"int ")?;
    let name = text.len();
    text.extend_from_slice(b"f(spdid_t s, long desc(d)")?;
    for _ in 2..count {
        text.extend_from_slice(b", long a")?;
    }
    text.extend_from_slice(b");\n")?;
    Ok((text, name))
}

// A text with a function that sets as many fields as are asked for, and the place of the last of these.
fn fields(alloc: Global, count: u16) -> Result<(Vec<u8>, usize), AllocError> {
    let mut text = Vec::new(alloc);
    text.extend_from_slice(DATA.as_bytes())?;
    text.extend_from_slice(b"int f(spdid_t s, long desc(d)")?;
    let mut last = 0;
    for number in 0..count {
        text.extend_from_slice(b", long desc_data(")?;
        last = text.len();
        let name = format!(in alloc; "x{number})")?;
        text.extend_from_slice(name.as_bytes())?;
    }
    text.extend_from_slice(b");\n")?;
    Ok((text, last))
}

// A text with a function that answers by one rule, and one that does by as many as are asked for, and the place of the last of these.
fn rules(alloc: Global, count: usize) -> Result<(Vec<u8>, usize), AllocError> {
    let mut text = Vec::new(alloc);
    text.extend_from_slice(VERSION_3.as_bytes())?;
    text.extend_from_slice(
        b"sm_creation(f);\nsm_creation(g);\nint f(spdid_t s);\nint g(spdid_t s);\n",
    )?;
    text.extend_from_slice(b"sm_answer(f) { give 7; }\nsm_answer(g) {\n")?;
    let mut last = 0;
    for _ in 0..count {
        last = text.len();
        text.extend_from_slice(b"give 7;\n")?;
    }
    text.extend_from_slice(b"}\n")?;
    Ok((text, last))
}

// A limit that is passed.
fn past(at: usize) -> Answer {
    Some((ShapeFaultKind::Limit, at))
}

#[test]
fn many_functions(rt: HostRuntime) -> Result<(), Fail> {
    let alloc = rt.alloc();
    let (most, _) = functions(alloc, 32)?;
    assert_eq!(rt; answer(alloc, most.as_slice())?, None);
    let (text, at) = functions(alloc, 33)?;
    assert_eq!(rt; answer(alloc, text.as_slice())?, past(at));
    Ok(())
}

#[test]
fn many_parameters(rt: HostRuntime) -> Result<(), Fail> {
    let alloc = rt.alloc();
    let (most, _) = parameters(alloc, MOST_PARAMS)?;
    assert_eq!(rt; answer(alloc, most.as_slice())?, None);
    let (text, at) = parameters(alloc, MOST_PARAMS + 1)?;
    assert_eq!(rt; answer(alloc, text.as_slice())?, past(at));
    Ok(())
}

#[test]
fn many_fields(rt: HostRuntime) -> Result<(), Fail> {
    let alloc = rt.alloc();
    let (most, _) = fields(alloc, 8)?;
    assert_eq!(rt; answer(alloc, most.as_slice())?, None);
    let (text, at) = fields(alloc, 9)?;
    assert_eq!(rt; answer(alloc, text.as_slice())?, past(at));
    Ok(())
}

#[test]
fn many_rules(rt: HostRuntime) -> Result<(), Fail> {
    let alloc = rt.alloc();
    let (most, _) = rules(alloc, MOST_RULES)?;
    assert_eq!(rt; answer(alloc, most.as_slice())?, None);
    let (text, at) = rules(alloc, MOST_RULES + 1)?;
    assert_eq!(rt; answer(alloc, text.as_slice())?, past(at));
    Ok(())
}
