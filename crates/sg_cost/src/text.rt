// The text of what calls can cost.
ghost use Rattle.std.specs.Prelude.{◌≡◌, ◌++◌, IfOk, OnOk, codes};
ghost use Rattle.std.specs.Fmt.{decimal};
ghost use Rattle.std.specs.List.{flat_map};
ghost use Rattle.sg_cost.specs.Lines.{boot_lines, cost_text_of};
ghost use Rattle.sg_cost.specs.Inside.Pieces.{boot_line, fun_line};
ghost use Rattle.sg_facts.specs.Words.{line_end};
ghost use Rattle.sg_facts.specs.Facts.{fun_at};

use crate::{BootCost, Costs, FunCost, RowCost};
use sg_facts::{Bytes, Interface, NoMemory};
use sg_report::push_number;
use std::alloc::Global;

/// What calls can cost, as it is printed: a line `row` for each live descriptor with the calls of its walk, a line `cost` for each
/// function, a line `all`, and a line `boot` for each boot, with its replayed calls and their bound. A function that the interface's
/// shape doesn't have is printed without a name. The only error is want of memory.
pub fn cost_text(alloc: Global, iface: &Interface, costs: &Costs) -> Result<Bytes, NoMemory>
    ensures { IfOk result (λ text. text ≡ cost_text_of iface.now.facts costs.now) }
{
    let mut out = Bytes::new(alloc);
    push_rows(&mut out, costs.rows.as_slice())?;
    push_funs(&mut out, iface, costs.functions.as_slice())?;
    push_all(&mut out, costs.all)?;
    push_boots(&mut out, costs.boots.as_slice())?;
    Ok(out)
}

// A line for each live descriptor.
fn push_rows(out: &mut Bytes, costs: &[RowCost]) -> Result<(), NoMemory>
    ensures { OnOk result (out.new ≡ out.old ++ flat_map (λ c. codes "row " ++ decimal c.id ++ codes " walk " ++ decimal c.walk ++ line_end) costs.now) }
{
    for cost in costs {
        out.extend_from_slice(b"row ")?;
        push_number(out, cost.id)?;
        out.extend_from_slice(b" walk ")?;
        push_number(out, cost.walk)?;
        out.extend_from_slice(b"\n")?;
    }
    Ok(())
}

// A line for each function.
fn push_funs(out: &mut Bytes, iface: &Interface, costs: &[FunCost]) -> Result<(), NoMemory>
    ensures { OnOk result (out.new ≡ out.old ++ flat_map (λ c. codes "cost " ++ (fun_at iface.now.facts.funs c.fun).name ++ codes " " ++ decimal c.cost ++ line_end) costs.now) }
{
    for cost in costs {
        push_fun(out, iface, *cost)?;
    }
    Ok(())
}

// The line of a function.
fn push_fun(out: &mut Bytes, iface: &Interface, cost: FunCost) -> Result<(), NoMemory>
    ensures { OnOk result (out.new ≡ out.old ++ fun_line iface.now.facts cost) }
{
    let fun = iface.fun(cost.fun);
    out.extend_from_slice(b"cost ")?;
    out.extend_from_slice(fun.name)?;
    out.extend_from_slice(b" ")?;
    push_number(out, cost.cost)?;
    out.extend_from_slice(b"\n")
}

// The line of all descriptors together.
fn push_all(out: &mut Bytes, all: u64) -> Result<(), NoMemory>
    ensures { OnOk result (out.new ≡ out.old ++ codes "all " ++ decimal all ++ line_end) }
{
    out.extend_from_slice(b"all ")?;
    push_number(out, all)?;
    out.extend_from_slice(b"\n")
}

// A line for each boot, numbered from 1.
fn push_boots(out: &mut Bytes, costs: &[BootCost]) -> Result<(), NoMemory>
    ensures { OnOk result (out.new ≡ out.old ++ boot_lines 1 costs.now) }
{
    'boots: for (at, cost) in costs.iter().enumerate() {
        push_boot(out, at as u64 + 1, *cost)?;
    }
    Ok(())
}

// The line of a boot.
fn push_boot(out: &mut Bytes, number: u64, cost: BootCost) -> Result<(), NoMemory>
    ensures { OnOk result (out.new ≡ out.old ++ boot_line number cost) }
{
    out.extend_from_slice(b"boot ")?;
    push_number(out, number)?;
    out.extend_from_slice(b" walks ")?;
    push_number(out, cost.walks)?;
    out.extend_from_slice(b" bound ")?;
    push_number(out, cost.bound)?;
    out.extend_from_slice(b"\n")
}
