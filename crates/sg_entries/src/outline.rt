// What the outline of an entry tells of what is wrong with it.
ghost use Rattle.std.specs.Prelude.{◌≡◌, ◌<◌, ◌^◌};
ghost use Rattle.sg_entries.specs.Inside.Making.{IsMade};
ghost use Rattle.sg_entries.specs.Inside.Outlines.{bracket_count, count_flaws, is_value, outline_flaws};
ghost use Rattle.sg_facts.specs.Allowed.{count_args};
ghost use Rattle.sg_script.specs.Scripts.{declared_fun};

use crate::making::{client_of, fault, seq_of};
use crate::{EntriesError, EntriesKind, EntryOutline};
use sg_facts::{Interface, Kind};
use sg_script::declared_fun;

/// Looks whether an entry's client and number, its function, and the number of its arguments are right, and tells the first that isn't; a
/// place is one in its line.
pub fn check_outline(iface: &Interface, outline: &EntryOutline) -> Result<(), EntriesError>
    ensures { IsMade (outline_flaws iface.now outline.now) tt result }
{
    client_of(&outline.client)?;
    seq_of(&outline.seq)?;
    check_count(iface, outline)
}

// Looks whether an entry's function is declared and takes as many arguments as the entry has.
fn check_count(iface: &Interface, outline: &EntryOutline) -> Result<(), EntriesError>
    ensures { IsMade (count_flaws iface.now outline.now (declared_fun iface.now outline.now.name.bytes)) tt result }
{
    let at = outline.name.at;
    let Some(number) = declared_fun(iface, outline.name.slice) else {
        return Err(fault(EntriesKind::UnknownFunction, at));
    };
    let fun = iface.fun(number);
    if outline.args == bracket_count(fun.takes_id(), fun.kinds) {
        Ok(())
    } else {
        Err(fault(EntriesKind::BadArgs, at))
    }
}

// How many arguments stand in the brackets of a call of a function with these parameters.
fn bracket_count(takes_id: bool, kinds: &[Kind]) -> usize
    ensures { result ≡ bracket_count takes_id kinds.now }
{
    usize::from(takes_id) + count_args(kinds)
}

// The number of parameters beside descriptor and parent.
#[tactic(auto, using(crate::proofs::Outlines::counted))]
fn count_args(kinds: &[Kind]) -> usize
    ensures count { result ≡ count_args kinds.now }
    ensures bound { result < 2 ^ 63 }
{
    kinds.iter().filter(|kind| is_value(**kind)).count()
}

// Whether a parameter is neither the descriptor nor the parent.
fn is_value(kind: Kind) -> bool
    ensures { result ≡ is_value kind }
{
    matches!(kind, Kind::Word | Kind::Text)
}
