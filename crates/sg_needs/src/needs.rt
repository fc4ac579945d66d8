// What has to be there before the service is asked a call.
ghost use Rattle.std.specs.Prelude.{◌≡◌, ◌||◌, IfOk};
ghost use Rattle.sg_facts.specs.Facts.{fun_at};
ghost use Rattle.sg_facts.specs.Needs.{wanted};
ghost use Rattle.sg_facts.specs.Object.{Object};

use crate::line::path_to;
use sg_facts::{Call, Interface, NoMemory, Path};
use sg_track::Tracker;
use std::alloc::Global;

/// Whether all live rows have to be whole before a call of a function is served: where it looks at all, or where the interface
/// rebuilds every row first. Any other call needs the row of its descriptor or parent, and each ancestor.
pub fn wants_all(iface: &Interface, fun: u8) -> bool
    ensures { result ≡ (iface.now.eager || (fun_at iface.now.facts.funs fun).all) }
{
    iface.eager || iface.fun(fun).looks_at_all()
}

/// The path of the file that has to be there before a call is served: that of its descriptor, where its function uses it. For
/// any other function this takes no memory.
pub fn file_needed(
    alloc: Global,
    iface: &Interface,
    rows: &Tracker,
    call: &Call,
) -> Result<Option<Path>, NoMemory>
    ensures { IfOk result (λ file. (o : Object) → o.rows ≡ rows.now.rows → file ≡ (wanted iface.now o call.now).file) }
{
    if iface.fun(call.fun).uses_file() {
        Ok(Some(path_to(alloc, rows, call.desc)?))
    } else {
        Ok(None)
    }
}
