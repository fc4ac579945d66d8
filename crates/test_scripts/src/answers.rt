// What is answered on a script, and what is to be.
use crate::shapes::known_shapes;
use sg_check::{Accepted, check, parse};
use sg_facts::Interface;
use sg_script::{ScriptError, ScriptKind, read};
use std::alloc::Global;
use std::process::Abort;
use std::test::Fail;

/// What is first wrong with a script, at its place, counted in bytes from 0; None where nothing is.
pub type Answer = Option<(usize, ScriptKind)>;

/// A script and its answer.
pub type Case = (&'static [u8], Answer);

/// A standard interface.
pub(crate) fn standard(alloc: Global, text: &[u8]) -> Result<Accepted, Fail> {
    let tree = parse(alloc, text)?;
    Ok(check(alloc, &tree, &known_shapes())?)
}

/// The answer on a script.
pub(crate) fn answer(alloc: Global, script: &[u8], iface: &Interface) -> Result<Answer, Fail> {
    match read(alloc, script, iface) {
        Ok(_) => Ok(None),
        Err(ScriptError::Fault(fault)) => Ok(Some((fault.at, fault.kind))),
        Err(ScriptError::NoMemory) => Err(Fail::new("no memory")),
    }
}

/// Each of these scripts has its answer, for a standard interface.
pub(crate) fn try_each(
    rt: &impl Abort,
    alloc: Global,
    text: &[u8],
    cases: &[Case],
) -> Result<(), Fail> {
    let accepted = standard(alloc, text)?;
    for (script, want) in cases {
        let given = answer(alloc, script, accepted.interface())?;
        assert_eq!(rt; given, *want, "{script:?}");
    }
    Ok(())
}
