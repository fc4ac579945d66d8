// The refusals that the tracked rows alone give.
ghost use Rattle.std.specs.Prelude.{◌≡◌};
ghost use Rattle.std.specs.Option.{option_copied};
ghost use Rattle.sg_facts.specs.Facts.{fun_of_shape};
ghost use Rattle.sg_facts.specs.Guard.{guard as the_guard};
ghost use Rattle.sg_facts.specs.Inside.Guards.{in_state, may_be_parent, may_use, is_own};
ghost use Rattle.sg_facts.specs.Object.{Object};
ghost use Rattle.sg_needs.specs.Refused.{refused_by_rows};

use sg_facts::{Call, Code, FunShape, Interface, MOST_LIVE, Parents, Row};
use sg_track::Tracker;

/// The guard's refusal of a call, by the tracked rows alone; None where the call may reach the service. The first cause that
/// applies is answered: `NoParent` for a parent that isn't live, or under parents of the same client isn't the caller's;
/// `Full` for a creation while 1,024 descriptors are live; `NoDesc` for a descriptor that isn't live, or in a private service
/// isn't the caller's; `BadState` for a function that the interface doesn't declare in the row's state; `HasChildren` for the
/// end of a descriptor with a live child, where its end doesn't end them. A query is never refused.
pub fn guard(iface: &Interface, rows: &Tracker, call: &Call) -> Option<Code>
    ensures { (o : Object) → o.rows ≡ rows.now.rows → result ≡ the_guard iface.now o call.now }
{
    let fun = iface.fun(call.fun);
    if fun.is_query() {
        None
    } else {
        refusal(iface, &fun, rows, call)
    }
}

// The first cause that applies.
fn refusal(iface: &Interface, fun: &FunShape, rows: &Tracker, call: &Call) -> Option<Code>
    ensures { result ≡ refused_by_rows iface.now (fun_of_shape fun.now) rows.now.rows call.now }
{
    let row = rows.row(call.desc);
    if fun.takes_parent() && !may_be_parent(iface.shape.parents, row, call.desc, call.client) {
        return Some(Code::NoParent);
    }
    if fun.is_creation() && rows.live() >= MOST_LIVE {
        return Some(Code::Full);
    }
    if fun.takes_desc() && !may_use(iface, row, call.client) {
        return Some(Code::NoDesc);
    }
    if fun.takes_desc() && !in_state(iface, row, call.fun) {
        return Some(Code::BadState);
    }
    if fun.is_terminal() && !iface.shape.subtree && rows.has_children(call.desc) {
        return Some(Code::HasChildren);
    }
    None
}

// Whether a client may name a row as a parent.
fn may_be_parent(parents: Parents, row: Option<&Row>, parent: u64, client: u8) -> bool
    ensures { result ≡ may_be_parent parents (option_copied row.entry) parent client }
{
    match parents {
        Parents::Never | Parents::Cross => row.is_some(),
        Parents::Same => parent == 0 || is_own(row, client),
    }
}

// Whether a client may name a row as its descriptor.
fn may_use(iface: &Interface, row: Option<&Row>, client: u8) -> bool
    ensures { result ≡ may_use iface.now.facts (option_copied row.entry) client }
{
    if iface.shape.global {
        row.is_some()
    } else {
        is_own(row, client)
    }
}

// Whether a row is live, and made by the client.
fn is_own(row: Option<&Row>, client: u8) -> bool
    ensures { result ≡ is_own (option_copied row.entry) client }
{
    match row {
        Some(row) => row.creator == client,
        None => false,
    }
}

// Whether a function may be called in a row's state.
fn in_state(iface: &Interface, row: Option<&Row>, fun: u8) -> bool
    ensures { result ≡ in_state iface.now (option_copied row.entry) fun }
{
    match row {
        Some(row) => iface.moves_on(row.state, fun),
        None => false,
    }
}
