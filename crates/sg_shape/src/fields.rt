// The fields of a text.
ghost use Rattle.std.specs.Prelude.{◌≡◌, map, take, slice_get, IfOk};
ghost use Rattle.std.specs.List.{list_any};
ghost use Rattle.std.specs.Option.{option_map};
ghost use Rattle.std.specs.Str.{bytes_eq};
ghost use Rattle.sg_check_statements.specs.sg_facts.Limits.{most_fields};
ghost use Rattle.sg_shape.specs.Fields.{field_at, first_uses};
ghost use Rattle.sg_shape.specs.Inside.Parts.{fields_in};

use crate::keeping::{kept, kept_name};
use crate::uses::{FieldUse, UseList};
use sg_check_statements::{FieldShape, MOST_FIELDS, NoMemory};
use std::alloc::Global;

/// The fields of a text, as the first use of each has it: at most `MOST_FIELDS`, and the place of the first use of the next.
#[derive(Drop)]
pub struct Fields<'a> {
    pub first: UseList<'a>,
    pub next: Option<usize>,
}

/// The fields of these uses.
pub fn fields_of<'a>(alloc: Global, uses: &[FieldUse<'a>]) -> Result<Fields<'a>, NoMemory>
    ensures first { IfOk result (λ fields. fields.first ≡ take most_fields (first_uses uses.now)) }
    ensures next { IfOk result (λ fields. fields.next ≡ option_map (λ u. u.name.at) (slice_get (first_uses uses.now) most_fields)) }
{
    let mut first = UseList::new(alloc);
    'uses: for one in uses {
        if has_use(first.as_slice(), one.name()) {
            continue;
        }
        if first.len() == MOST_FIELDS {
            return Ok(Fields {
                first,
                next: Some(one.at()),
            });
        }
        first.push(one.same())?;
    }
    Ok(Fields { first, next: None })
}

// Whether some use is of the field of a name.
fn has_use(uses: &[FieldUse], name: &[u8]) -> bool
    ensures { result ≡ list_any (λ u. bytes_eq u.name.bytes name.now) uses.now }
{
    uses.iter().any(|one| one.name() == name)
}

/// The fields that uses have, kept to the end of the program.
pub fn field_shapes(alloc: Global, uses: &[FieldUse]) -> Result<&'static [FieldShape], NoMemory>
    ensures { IfOk result (λ fields. fields_in fields.now ≡ map field_at uses.now) }
{
    let mut fields = Vec::new(alloc);
    'uses: for one in uses {
        fields.push(FieldShape {
            name: kept_name(alloc, one.name())?,
            text: one.text().unwrap_or(false),
        })?;
    }
    Ok(kept(fields))
}
