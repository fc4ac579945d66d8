// What names and numbers in rules stand for.
ghost use Rattle.std.specs.Prelude.{◌≡◌, ◌≤◌, is_some, length, position};
ghost use Rattle.std.specs.Str.{bytes_eq};
ghost use Rattle.sg_shape.specs.sg_facts.Facts.{facts_of};
ghost use Rattle.sg_shape.specs.sg_facts.Limits.{most_fields, most_funs};
ghost use Rattle.sg_describe.specs.Names.{argument_at, argument_named, code_named, field_number, named, param_place};

use sg_described::Operand;
use sg_shape::{Code, FieldShape, Kind, Shape, count_args, fun_number, number_of_digits};

/// Every code.
const CODES: [Code; 13] = [
    Code::NoDesc,
    Code::NoParent,
    Code::BadState,
    Code::HasChildren,
    Code::Full,
    Code::NotOwner,
    Code::Held,
    Code::Occupied,
    Code::NotFound,
    Code::Overflow,
    Code::Gap,
    Code::TooBig,
    Code::BadName,
];

/// The code of a name.
pub fn code_named(name: &[u8]) -> Option<Code>
    ensures { result ≡ code_named name.now }
{
    CODES.iter().copied().find(|code| name == code.name())
}

/// The number of the field of a name, from 0.
pub fn field_number(shape: &Shape, name: &[u8]) -> Option<usize>
    ensures { result ≡ field_number (facts_of shape.now) name.now }
{
    place_of(shape.fields, name)
}

// The place, from 0, of the field of a name among fields.
fn place_of(fields: &[FieldShape], name: &[u8]) -> Option<usize>
    ensures { result ≡ position (λ field. bytes_eq field.name.now name.now) fields.now }
{
    fields.iter().position(|field| field.name == name)
}

/// What a name in a rule stands for: the field of the name, else the state that the function of the name leaves, as its number. A shape has
/// at most `MOST_FUNS` functions and `MOST_FIELDS` fields.
pub fn named(shape: &Shape, name: &[u8]) -> Option<Operand>
    requires funs { length (facts_of shape.now).funs ≤ most_funs }
    requires fields { length (facts_of shape.now).fields ≤ most_fields }
    ensures { result ≡ named (facts_of shape.now) name.now }
{
    if let Some(number) = field_number(shape, name) {
        return Some(Operand::Own(number as u8));
    }
    let number = fun_number(shape, name)?;
    Some(Operand::Number(number as u64))
}

/// The number, from 0, of the argument that digits name among at most 255 parameters after the caller; None where there is no such
/// parameter, or it is no number.
pub fn argument_named(kinds: &[Kind], digits: &[u8]) -> Option<u8>
    requires { length kinds.now ≤ 255 }
    ensures { result ≡ argument_named kinds.now digits.now }
{
    argument_at(kinds, param_place(digits)?)
}

// The number of the argument at a place, from 0; None where there is no such parameter, or it is no number.
fn argument_at(kinds: &[Kind], place: usize) -> Option<u8>
    requires { length kinds.now ≤ 255 }
    ensures { result ≡ argument_at kinds.now place }
{
    match kinds.get(place)? {
        Kind::Word => Some(count_args(&kinds[..place]) as u8),
        Kind::Desc | Kind::Parent | Kind::Text => None,
    }
}

// The place, from 0, of the parameter after the caller that digits number from 1.
fn param_place(digits: &[u8]) -> Option<usize>
    ensures { result ≡ param_place digits.now }
{
    let number = number_of_digits(digits)?;
    if number >= 1 {
        Some((number - 1) as usize)
    } else {
        None
    }
}

/// Whether digits name an argument: there is such a parameter after the caller, and it is a number.
pub fn is_argument(kinds: &[Kind], digits: &[u8]) -> bool
    ensures { result ≡ is_some (argument_named kinds.now digits.now) }
{
    match param_place(digits) {
        Some(place) => matches!(kinds.get(place), Some(Kind::Word)),
        None => false,
    }
}
