// Texts with one place marked, and what is first wrong there.
use sg_shape::{ShapeError, ShapeFaultKind, parse, shape_of};
use std::alloc::{AllocError, Global};
use std::process::Abort;
use std::test::Fail;

/// A text that is made of a head and of statements, and what is first wrong with it: at the byte after `@`, which isn't of the text. Nothing is
/// wrong where nothing is marked.
#[derive(Clone, Copy, Debug)]
pub struct Case {
    pub head: &'static str,
    pub statements: &'static str,
    pub wrong: Option<ShapeFaultKind>,
}

/// What is first wrong with a text, and where.
pub type Answer = Option<(ShapeFaultKind, usize)>;

/// A global service without parents, files and data, which blocks nobody.
pub const PLAIN: &str =
    "service_global_info = { service = own, desc_has_parent = none, desc_close = refuse, desc_is_global = true, desc_block = false, desc_has_data = false, resc_has_data = false };\n";

/// The same, whose rows have data.
pub const DATA: &str =
    "service_global_info = { service = own, desc_has_parent = none, desc_close = refuse, desc_is_global = true, desc_block = false, desc_has_data = true, resc_has_data = false };\n";

/// The same, whose descriptors may have parents of the same client.
pub const PARENTS: &str =
    "service_global_info = { service = own, desc_has_parent = same, desc_close = refuse, desc_is_global = true, desc_block = false, desc_has_data = true, resc_has_data = false };\n";

/// A private service.
pub const PRIVATE: &str =
    "service_global_info = { service = own, desc_has_parent = none, desc_close = refuse, desc_is_global = false, desc_block = false, desc_has_data = false, resc_has_data = false };\n";

/// A global service without parents, files and data, which blocks nobody, in a text of version 3.
pub const VERSION_3: &str =
    "service_global_info = { version = 3, service = own, desc_has_parent = none, desc_close = refuse, desc_is_global = true, desc_block = false, desc_has_data = false, resc_has_data = false, desc_recover = demand };\n";

// Adds what stands in a part beside marks, and finds where a mark stands.
fn add_part(text: &mut Vec<u8>, marked: &mut Option<usize>, part: &str) -> Result<(), AllocError> {
    for byte in part.as_bytes() {
        if *byte == b'@' {
            *marked = Some(text.len());
        } else {
            text.push(*byte)?;
        }
    }
    Ok(())
}

/// What is first wrong with a text.
pub(crate) fn answer(alloc: Global, text: &[u8]) -> Result<Answer, Fail> {
    let tree = parse(alloc, text)?;
    match shape_of(alloc, &tree) {
        Ok(_) => Ok(None),
        Err(ShapeError::Fault(fault)) => Ok(Some((fault.kind, fault.at))),
        Err(ShapeError::NoMemory) => Err(Fail::new("no memory")),
    }
}

/// Each of these texts is answered so.
pub(crate) fn try_each(rt: &impl Abort, alloc: Global, cases: &[Case]) -> Result<(), Fail> {
    for case in cases {
        let mut text = Vec::new(alloc);
        let mut marked = None;
        add_part(&mut text, &mut marked, case.head)?;
        add_part(&mut text, &mut marked, case.statements)?;
        let want = match (case.wrong, marked) {
            (Some(kind), Some(at)) => Some((kind, at)),
            _ => None,
        };
        assert_eq!(rt; answer(alloc, text.as_slice())?, want, "with {case:?}");
    }
    Ok(())
}
