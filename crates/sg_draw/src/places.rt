// Where in a history the calls of clients stand.
ghost use Rattle.std.specs.Prelude.{◌≡◌, IfOk, OnOk, if◌then◌else◌, ℕ, Some};
ghost use Rattle.std.specs.Option.{option_map};
ghost use Rattle.std.specs.Map.{lookup};
ghost use Rattle.sg_draw.specs.Labels.{entry_of};
ghost use Rattle.sg_draw.specs.Inside.Places.{ArePlaces, same_call};
ghost use Rattle.sg_report.specs.sg_hist.Lent.{entry_in};

use sg_facts::{LentCall, NoMemory};
use sg_report::{History, LentEntry};
use std::alloc::Global;
use std::collections::HashMap;

/// The place, counted from 0, of the first entry of each call: by client and number.
pub(crate) type Places = HashMap<(u8, u32), usize>;

/// The places of all calls of a history.
pub(crate) fn places_of(alloc: Global, history: &History) -> Result<Places, NoMemory>
    ensures { IfOk result (λ places. ArePlaces places.entries history.now.items) }
{
    let mut places = Places::new(alloc);
    let mut at = history.len();
    'entries: while at > 0 {
        at -= 1;
        let entry = history.at(at);
        note(&mut places, &entry.call, at)?;
    }
    Ok(places)
}

// Notes the place of the entry of a call, in the stead of a later one of the same call.
fn note(places: &mut Places, call: &LentCall, at: usize) -> Result<(), NoMemory>
    ensures { OnOk result ((client seq : ℕ) → lookup (same_call (client, seq)) places.new.entries
        ≡ (if same_call (call.now.client, call.now.seq) (client, seq) then Some at else lookup (same_call (client, seq)) places.old.entries)) }
{
    match places.insert((call.client, call.seq), at) {
        Ok(_) => Ok(()),
        Err(_) => Err(NoMemory),
    }
}

/// The first entry of a call.
pub(crate) fn entry_of<'a>(
    places: &Places,
    history: &'a History,
    client: u8,
    seq: u32,
) -> Option<LentEntry<'a>>
    requires { ArePlaces places.now.entries history.now.items }
    ensures { option_map entry_in result ≡ entry_of history.now.items client seq }
{
    let at = places.get(&(client, seq))?;
    history.get(*at)
}
