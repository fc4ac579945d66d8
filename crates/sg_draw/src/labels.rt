// What is written beside the rows of a picture.
ghost use Rattle.std.specs.Prelude.{◌≡◌, ◌++◌, IfOk, OnOk, codes};
ghost use Rattle.std.specs.Fmt.{decimal};
ghost use Rattle.std.specs.Option.{option_map};
ghost use Rattle.sg_facts.specs.Lent.{item_in, outcome_in, tag_in};
ghost use Rattle.sg_report.specs.sg_hist.Lent.{entry_in};
ghost use Rattle.sg_draw.specs.Labels.{answer_told, label_of, reply_told};
ghost use Rattle.sg_draw.specs.Pictures.{client_name, title_of};
ghost use Rattle.sg_draw.specs.Inside.Places.{ArePlaces};

use crate::places::{Places, entry_of};
use sg_facts::{Bytes, Interface, LentItem, LentOutcome, LentTag, NoMemory};
use sg_report::{History, LentEntry, push_answer, push_item, push_number};
use std::alloc::Global;

/// The label of an item: its line in the trace, and after a call of a client that replied its reply, where the history has the call.
pub(crate) fn item_label(
    alloc: Global,
    iface: &Interface,
    history: &History,
    places: &Places,
    item: &LentItem,
) -> Result<Bytes, NoMemory>
    requires { ArePlaces places.now.entries history.now.items }
    ensures { IfOk result (λ label. label ≡ label_of iface.now.facts history.now.items (item_in item.now)) }
{
    let mut label = Bytes::new(alloc);
    push_item(&mut label, iface, item)?;
    push_told(&mut label, iface, history, places, item)?;
    Ok(label)
}

// The reply to an item's call, where it is one of a client that replied.
fn push_told(
    out: &mut Bytes,
    iface: &Interface,
    history: &History,
    places: &Places,
    item: &LentItem,
) -> Result<(), NoMemory>
    requires { ArePlaces places.now.entries history.now.items }
    ensures { OnOk result (out.new ≡ out.old ++ answer_told iface.now.facts history.now.items (tag_in item.now.tag) (outcome_in item.now.outcome)) }
{
    match (&item.tag, &item.outcome) {
        (LentTag::Client { client, seq }, LentOutcome::Replied { .. }) => {
            push_reply(out, iface, entry_of(places, history, *client, *seq))
        }
        _ => Ok(()),
    }
}

// The reply of an entry, where there is one.
fn push_reply(out: &mut Bytes, iface: &Interface, entry: Option<LentEntry>) -> Result<(), NoMemory>
    ensures { OnOk result (out.new ≡ out.old ++ reply_told iface.now.facts (option_map entry_in entry.entry)) }
{
    match entry {
        None => Ok(()),
        Some(entry) => {
            out.extend_from_slice(b" = ")?;
            push_answer(out, &iface.fun(entry.call.fun), &entry.reply)
        }
    }
}

/// A word and a number after it.
pub(crate) fn numbered(alloc: Global, word: &[u8], number: u64) -> Result<Bytes, NoMemory>
    ensures { IfOk result (λ text. text ≡ word.now ++ decimal number) }
{
    let mut text = Bytes::from_slice(alloc, word)?;
    push_number(&mut text, number)?;
    Ok(text)
}

/// The name of a client.
pub(crate) fn client_label(alloc: Global, client: u8) -> Result<Bytes, NoMemory>
    ensures { IfOk result (λ name. name ≡ client_name client) }
{
    numbered(alloc, b"c", u64::from(client))
}

/// The title of a picture: whose run it is.
pub(crate) fn title(alloc: Global, iface: &Interface) -> Result<Bytes, NoMemory>
    ensures { IfOk result (λ text. text ≡ title_of iface.now.facts) }
{
    let mut text = Bytes::from_slice(alloc, b"A run of the service ")?;
    text.extend_from_slice(iface.shape.name)?;
    Ok(text)
}
