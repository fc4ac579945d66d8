// Lists that are kept to the end of the program.
ghost use Rattle.std.specs.Prelude.{◌≡◌, IfOk};

use sg_check_statements::NoMemory;
use std::alloc::Global;

/// A list that is kept to the end of the program, lent. Its memory is never given back.
pub fn kept<'a, T: Drop + 'a>(list: Vec<T>) -> &'a [T]
    ensures { result.now ≡ list.items }
{
    let all = list.leak();
    &*all
}

/// A copy of a name that is kept to the end of the program.
pub fn kept_name(alloc: Global, name: &[u8]) -> Result<&'static [u8], NoMemory>
    ensures { IfOk result (λ copy. copy.now ≡ name.now) }
{
    Ok(kept(Vec::from_slice(alloc, name)?))
}
