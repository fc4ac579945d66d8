// The row that a creation makes.
ghost use Rattle.std.specs.Prelude.{◌≡◌, ◌≤◌, length, map, take};
ghost use Rattle.sg_facts.specs.Facts.{fun_at, fun_of_shape};
ghost use Rattle.sg_facts.specs.Track.{fields_after, new_row};
ghost use Rattle.sg_facts.specs.Fields.{empty_field};
ghost use Rattle.sg_track.specs.Drafts.{EachNew, IsValue, blank_draft, empty_shape};
ghost use Rattle.sg_track.specs.Kept.{HasRowRoom};

use crate::draft::{Draft, draft_each};
use crate::room::RowRoom;
use sg_facts::{Call, FieldShape, Fields, FunShape, Good, Interface, Row};

/// The row that an Ok of a creation makes, in the room for it.
pub(crate) fn made_row(interface: &Interface, call: &Call, good: &Good, room: &mut RowRoom) -> Row
    requires room { HasRowRoom room.old }
    requires few { length interface.now.facts.fields ≤ 8 }
    requires values { EachNew IsValue call.now good.now (fun_at interface.now.facts.funs call.now.fun).effects (map empty_field interface.now.facts.fields) }
    ensures { result ≡ new_row interface.now.facts call.now good.now }
{
    let fun = interface.fun(call.fun);
    let fields = made_fields(interface.shape.fields, &fun, call, good, room);
    let parent = if fun.takes_parent() { call.desc } else { 0 };
    Row {
        id: good.desc,
        made: call.fun,
        creator: call.client,
        parent,
        state: fun.leaves.state_after(call.fun, call.fun),
        fields,
    }
}

// The fields of the row that a creation makes.
fn made_fields(
    fields: &[FieldShape],
    fun: &FunShape,
    call: &Call,
    good: &Good,
    room: &mut RowRoom,
) -> Fields
    requires room { HasRowRoom room.old }
    requires few { length fields.now ≤ 8 }
    requires values { EachNew IsValue call.now good.now (fun_of_shape fun.now).effects (map empty_shape fields.now) }
    ensures { result ≡ fields_after call.now good.now (fun_of_shape fun.now).effects (map empty_shape fields.now) }
{
    let mut drafts = blank_drafts(fields);
    let count = fields.len();
    draft_each(&mut drafts[..count], fun.effects, call, good);
    room.fill(&drafts[..count], call)
}

// The fields of a row before any effect.
fn blank_drafts(fields: &[FieldShape]) -> [Draft; 8]
    requires { length fields.now ≤ 8 }
    ensures { take (length fields.now) result ≡ map blank_draft fields.now }
{
    let mut drafts = [Draft::Number(0); 8];
    'fields: for (at, field) in fields.iter().enumerate() {
        drafts[at] = blank_draft(field);
    }
    drafts
}

// 0, or the empty text.
fn blank_draft(field: &FieldShape) -> Draft
    ensures { result ≡ blank_draft field.now }
{
    if field.text {
        Draft::Blank
    } else {
        Draft::Number(0)
    }
}
