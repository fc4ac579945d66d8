// The receipt of each client.
ghost use Rattle.std.specs.Prelude.{◌≡◌, ◌+◌, ◌-◌, ◌≤◌, None, IfOk, length, replicate, slice_set};
ghost use Rattle.std.specs.Option.{option_copied};
ghost use Rattle.sg_store.specs.Stored.{receipt_in};

use sg_facts::{NoMemory, Reply};
use std::alloc::Global;

/// That the effect of a client's call is in the storage.
#[derive(Debug, Drop)]
pub struct Receipt {
    /// The number of the call among the client's own.
    pub seq: u32,
    pub reply: Reply,
}

/// No receipt, for each of so many clients.
pub(crate) fn no_receipts(alloc: Global, clients: u8) -> Result<Vec<Option<Receipt>>, NoMemory>
    ensures { IfOk result (λ receipts. receipts.items ≡ replicate clients None) }
{
    let mut receipts = Vec::with_capacity(alloc, usize::from(clients))?;
    'clients: for _ in 0..clients {
        receipts.push(None)?;
    }
    Ok(receipts)
}

/// The receipt of a client, by its number from 1; None where there is none.
pub(crate) fn receipt_of(receipts: &[Option<Receipt>], client: u8) -> Option<&Receipt>
    ensures { option_copied result ≡ receipt_in receipts.now client }
{
    if client == 0 {
        return None;
    }
    match receipts.get(usize::from(client) - 1) {
        Some(receipt) => receipt.as_ref(),
        None => None,
    }
}

/// Puts a receipt in the place of the client's last.
pub(crate) fn put_receipt(receipts: &mut Vec<Option<Receipt>>, client: u8, receipt: Receipt)
    requires first { 1 ≤ client }
    requires last { client ≤ length receipts.old.items }
    ensures { receipts.new.items ≡ slice_set receipts.old.items (client - 1) (Some receipt) }
{
    receipts[usize::from(client) - 1] = Some(receipt);
}
