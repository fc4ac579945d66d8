// The last boots in which the service was asked calls.
ghost use Rattle.std.specs.Prelude.{◌≡◌, if◌then◌else◌, ℕ, IfOk, OnOk, map};
ghost use Rattle.sg_cost.specs.Inside.LastBoots.{AreLastBoots, has_call, kept_boot, same_call};
ghost use Rattle.sg_facts.specs.Inside.Rows.{boot_of};

use indexmap::IndexMap;
use sg_facts::{BootLog, ItemList, LentTag, NoMemory};
use std::alloc::Global;

/// The last boot, counted from 1, in which the service was asked each call of a client.
pub(crate) type LastBoots = IndexMap<(u8, u32), u64>;

/// The last boots of all calls of clients that these boots have.
pub(crate) fn last_boots(alloc: Global, boots: &[BootLog]) -> Result<LastBoots, NoMemory>
    ensures { IfOk result (λ last. AreLastBoots last.entries (map boot_of boots.now)) }
{
    let mut last = LastBoots::new(alloc);
    'boots: for (at, boot) in boots.iter().enumerate() {
        note_boot(&mut last, at as u64 + 1, &boot.items)?;
    }
    Ok(last)
}

// Notes a boot as the last of the calls that it has.
#[tactic(auto, using(std::proofs::lemmas::Grind::common_steps, sg_facts::proofs::Places::take_next))]
fn note_boot(last: &mut LastBoots, number: u64, items: &ItemList) -> Result<(), NoMemory>
    ensures { OnOk result ((client seq : ℕ) → kept_boot last.new.entries client seq ≡ (if has_call client seq items.now.items then number else kept_boot last.old.entries client seq)) }
{
    'items: for at in 0..items.len() {
        let item = items.at(at);
        if let LentTag::Client { client, seq } = item.tag {
            note_call(last, client, seq, number)?;
        }
    }
    Ok(())
}

// Notes a boot as the last of a call.
fn note_call(last: &mut LastBoots, client: u8, seq: u32, number: u64) -> Result<(), NoMemory>
    ensures { OnOk result ((c s : ℕ) → kept_boot last.new.entries c s ≡ (if same_call (client, seq) (c, s) then number else kept_boot last.old.entries c s)) }
{
    last.reserve(1)?;
    match last.insert((client, seq), number) {
        Ok(_) => Ok(()),
        Err(_) => unreachable!(),
    }
}

/// The last boot of a call, 0 for none.
pub(crate) fn last_boot(last: &LastBoots, client: u8, seq: u32) -> u64
    ensures { result ≡ kept_boot last.now.entries client seq }
{
    match last.get(&(client, seq)) {
        Some(boot) => *boot,
        None => 0,
    }
}
