// Lists that gain what is found.
ghost use Rattle.std.specs.Prelude.{◌≡◌, ◌++◌, OnOk};
ghost use Rattle.std.specs.Option.{option_to_list};

use sg_check_statements::{ListOf, NoMemory};

/// Adds an element at the end of a list, where there is one.
pub fn add<E: Drop>(list: &mut ListOf<E>, found: Option<E>) -> Result<(), NoMemory>
    ensures { OnOk result (list.new ≡ list.old ++ option_to_list found) }
{
    match found {
        None => Ok(()),
        Some(item) => list.push(item),
    }
}
