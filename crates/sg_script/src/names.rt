// The declared functions of interfaces, and their services, by name.
ghost use Rattle.std.specs.Prelude.{◌≡◌, ◌+◌, ◌<◌, ◌≤◌, ◌^◌, length, map, option_map, IfSome};
ghost use Rattle.std.specs.List.{position_from};
ghost use Rattle.std.specs.Str.{bytes_eq};
ghost use Rattle.sg_facts.specs.Facts.{fun_of_shape};
ghost use Rattle.sg_script.specs.Scripts.{declared_fun, declared_from, found_from, function_named, is_stop_of, most_members, stop_member};

use sg_facts::{FunShape, Interface, MOST_FUNS};
use sg_script_parse::{Part, Spelled};

/// The number of the declared function of a name; None where there is none.
pub fn declared_fun(iface: &Interface, name: &[u8]) -> Option<u8>
    ensures { result ≡ declared_fun iface.now name.now }
{
    declared_from(iface, name, 1, iface.shape.funs)
}

// The number of the declared function of a name among these functions, the first of which has this number; None where there is
// none.
fn declared_from(iface: &Interface, name: &[u8], first: u8, funs: &[FunShape]) -> Option<u8>
    ensures { result ≡ declared_from iface.now name.now first (map fun_of_shape funs.now) }
{
    if first > MOST_FUNS {
        prove!(iface.declared <= u32::MAX);
        return None;
    }
    match funs {
        [] => None,
        [fun, ..] if fun.name == name && iface.declares(first) => Some(first),
        [_, rest @ ..] => declared_from(iface, name, first + 1, rest),
    }
}

/// The function of a name that the first member declares which declares one; None where none does.
pub fn function_named(members: &[Interface], name: &[u8]) -> Option<FunShape>
    ensures { option_map fun_of_shape result ≡ function_named members.now name.now }
{
    match members {
        [] => None,
        [iface, rest @ ..] => match declared_fun(iface, name) {
            Some(number) => Some(iface.fun(number)),
            None => function_named(rest, name),
        },
    }
}

/// The number of that member, where members are numbered from this on, and the function's number there.
pub fn found_from(first: u8, members: &[Interface], name: &[u8]) -> Option<(u8, u8)>
    requires { first + length members.now < 2 ^ 8 }
    ensures { result ≡ found_from first members.now name.now }
{
    match members {
        [] => None,
        [iface, rest @ ..] => match declared_fun(iface, name) {
            Some(number) => Some((first, number)),
            None => found_from(first + 1, rest, name),
        },
    }
}

/// The member, from 0, that a `stop` is for: the one of the service that it names, or the first where it names none; None where
/// there is no member of that service.
pub fn stop_member(members: &[Interface], service: &Option<Spelled>) -> Option<usize>
    requires { length members.now ≤ most_members }
    ensures member { result ≡ stop_member members.now service.now }
    ensures few { IfSome result (λ m. m < most_members) }
{
    match service {
        Some(service) => member_from(0, members, service.slice),
        None => Some(0),
    }
}

// The place of the first of these members, counted from this on, that is of the service of a name.
fn member_from(first: usize, members: &[Interface], name: &[u8]) -> Option<usize>
    requires { first + length members.now ≤ most_members }
    ensures member { result ≡ position_from (λ i. bytes_eq i.facts.name name.now) first members.now }
    ensures few { IfSome result (λ m. m < most_members) }
{
    match members {
        [] => None,
        [iface, ..] if iface.shape.name == name => Some(first),
        [_, rest @ ..] => member_from(first + 1, rest, name),
    }
}

/// Whether a part is a `stop` for a member, from 0.
pub fn is_stop_of(members: &[Interface], member: usize, part: &Part) -> bool
    requires { length members.now ≤ most_members }
    ensures { result ≡ is_stop_of members.now member part.now }
{
    match part {
        Part::Stop { service, .. } => match stop_member(members, service) {
            Some(number) => number == member,
            None => false,
        },
        _ => false,
    }
}
