// The names of ended rows.
ghost use Rattle.std.specs.Prelude.{◌≡◌, ◌≤◌, ◌&&◌, ℕ, true, if◌then◌else◌};
ghost use Rattle.sg_facts.specs.Track.{is_ancestor, is_live, row_at};
ghost use Rattle.sg_facts.specs.Inside.Rows.{parent_in, track};
ghost use Rattle.sg_name.specs.Names.{named_at};
ghost use Rattle.sg_name.specs.declared.named.Named.TheVariants.{Unnamed};
ghost use Rattle.sg_replay.specs.Committing.{name_left};
ghost use Rattle.sg_needs.specs.sg_track.Kept.{ends_below};
ghost use Rattle.sg_replay.specs.Inside.Ends.{AreUnnamed, ends_rows, is_ended, is_named};

use sg_facts::{Call, Interface, Reply};
use sg_name::{Named, Names};
use sg_needs::Tracker;

/// Drops the names of the ids whose rows an answered call ends. It takes no memory.
pub(crate) fn forget_ended(
    names: &mut Names,
    rows: &Tracker,
    interface: &Interface,
    call: &Call,
    reply: &Reply,
)
    ensures names { let after = track interface.now.facts rows.now.rows call.now reply.now in (id : ℕ) → named_at names.new.known id ≡ name_left rows.now.rows after id (named_at names.old.known id) }
    ensures spare { names.old.spare ≤ names.new.spare }
{
    if ends_rows(interface, call, reply) {
        forget_with(names, rows, interface.shape.subtree, call.desc);
    }
}

// Whether an answered call ends rows.
fn ends_rows(interface: &Interface, call: &Call, reply: &Reply) -> bool
    ensures { result ≡ ends_rows interface.now.facts call.now reply.now }
{
    match reply {
        Reply::Ok(_) => {
            let fun = interface.fun(call.fun);
            fun.is_terminal() && !fun.is_query() && !fun.is_creation()
        }
        Reply::Refused(_) => false,
    }
}

// Drops the names of the live ids that end with one.
fn forget_with(names: &mut Names, rows: &Tracker, subtree: bool, gone: u64)
    ensures names { (id : ℕ) → named_at names.new.known id ≡ (if is_ended subtree rows.now.rows gone id then Unnamed else named_at names.old.known id) }
    ensures spare { names.old.spare ≤ names.new.spare }
{
    if subtree && rows.has_children(gone) {
        forget_below(names, rows, gone);
    } else if is_tracked(rows, gone) {
        names.drop_id(gone);
    }
}

// Drops the names of an id and of those below it, where they are live. No row before the id's own is looked at.
fn forget_below(names: &mut Names, rows: &Tracker, gone: u64)
    ensures names { (id : ℕ) → named_at names.new.known id ≡ (if is_ended true rows.now.rows gone id then Unnamed else named_at names.old.known id) }
    ensures spare { names.old.spare ≤ names.new.spare }
{
    'places: for place in rows.place(gone)..rows.live() {
        let id = rows.id_at(place);
        if loses_name(names, rows, gone, id) {
            names.drop_id(id);
        }
    }
}

// Whether an id has a name and ends with another, where the ids between that end have none any more.
fn loses_name(names: &Names, rows: &Tracker, gone: u64, id: u64) -> bool
    requires { AreUnnamed rows.now.rows names.now.known gone id }
    ensures { result ≡ (is_named (named_at names.now.known id) && ends_below rows.now.rows gone id) }
{
    is_named(names.get(id)) && (id == gone || is_below(names, rows, gone, id))
}

// Whether an id is below another, where the ids between that are so have no name. Each parent is below its child, so the way up
// ends: at the latest where it is past the other, and before that at an id with a name.
fn is_below(names: &Names, rows: &Tracker, above: u64, id: u64) -> bool
    requires { AreUnnamed rows.now.rows names.now.known above id }
    ensures { result ≡ is_ancestor rows.now.rows above id }
{
    // Nothing is done: the proof takes what this call promises.
    let _tracked = rows.live();
    let mut parent = parent_of(rows, id);
    'up: while parent > above {
        if is_named(names.get(parent)) {
            return false;
        }
        parent = parent_of(rows, parent);
    }
    parent != 0 && parent == above
}

// Whether something stands for an id.
fn is_named(named: Named) -> bool
    ensures { result ≡ is_named named }
{
    !matches!(named, Named::Unnamed)
}

// The parent of an id; 0 where there is no row.
fn parent_of(rows: &Tracker, id: u64) -> u64
    ensures { result ≡ parent_in (row_at rows.now.rows id) }
{
    match rows.row(id) {
        Some(row) => row.parent,
        None => 0,
    }
}

// Whether an id has a row.
fn is_tracked(rows: &Tracker, id: u64) -> bool
    ensures { result ≡ is_live rows.now.rows id }
{
    rows.row(id).is_some()
}
