// Whether the functions of a name show their bytes.
ghost use Rattle.std.specs.Prelude.{◌≡◌, ◌&&◌, map};
ghost use Rattle.std.specs.List.{list_any};
ghost use Rattle.std.specs.Str.{bytes_eq};
ghost use Rattle.sg_facts.specs.Facts.{Fun, facts_of, fun_of_shape, shows_bytes};
ghost use Rattle.sg_entries.specs.Entry.{shows_named};

use sg_facts::{FunShape, Interface, Shape};
use sg_script::declared_fun;

/// Whether an Ok of a function of this name shows its bytes: by the function that the interface declares, or where it declares none, by
/// those of all these shapes.
pub fn shows_named(iface: &Interface, shapes: &[Shape], name: &[u8]) -> bool
    ensures { result ≡ shows_named (map facts_of shapes.now) iface.now name.now }
{
    match declared_fun(iface, name) {
        Some(number) => iface.fun(number).shows_bytes(),
        None => is_shown_by(shapes, name),
    }
}

// Whether some function of these shapes has this name and shows its bytes.
fn is_shown_by(shapes: &[Shape], name: &[u8]) -> bool
    ensures { result ≡ list_any (λ s. list_any (λ (f : Fun). bytes_eq f.name name.now && shows_bytes f) s.funs) (map facts_of shapes.now) }
{
    match shapes {
        [] => false,
        [shape, rest @ ..] => is_shown_among(shape.funs, name) || is_shown_by(rest, name),
    }
}

// Whether some function among these has this name and shows its bytes.
fn is_shown_among(funs: &[FunShape], name: &[u8]) -> bool
    ensures { result ≡ list_any (λ (f : Fun). bytes_eq f.name name.now && shows_bytes f) (map fun_of_shape funs.now) }
{
    match funs {
        [] => false,
        [fun, rest @ ..] => {
            (fun.name == name && fun.shows_bytes()) || is_shown_among(rest, name)
        }
    }
}
