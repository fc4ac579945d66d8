// The rows of a picture, from top to bottom.
ghost use Rattle.std.specs.Prelude.{◌≡◌, ◌++◌, ◌∷◌, [], IfOk, OnOk, map, codes};
ghost use Rattle.std.specs.Fmt.{decimal};
ghost use Rattle.sg_facts.specs.Trace.{run_of};
ghost use Rattle.sg_facts.specs.Inside.Rows.{boot_of};
ghost use Rattle.sg_draw.specs.Labels.{label_of, labels_from, labels_of};
ghost use Rattle.sg_draw.specs.Inside.Places.{ArePlaces};
ghost use Rattle.sg_draw.specs.Inside.Rows.{labels_in, stop_labels};

use crate::labels::{item_label, numbered};
use crate::places::{Places, places_of};
use sg_facts::{
    BootLog, Bytes, Interface, ItemList, LentItem, LentOutcome, LentTag, ListOf, NoMemory,
};
use sg_report::{Ended, History};
use std::alloc::Global;

/// Why the service was asked, as a picture shows it.
#[derive(Debug, Clone, Copy, PartialEq, Eq)]
pub(crate) enum Asked {
    /// By a call of a client.
    Call,
    /// By a call of a walk.
    Walk,
    /// For a file.
    Load,
}

/// An item, as a picture shows it.
#[derive(Debug, Clone, Copy, PartialEq, Eq)]
pub(crate) struct ShownItem {
    pub asked: Asked,
    /// The client in whose turn it was made.
    pub client: u8,
    /// Whether that client waits from then on.
    pub waits: bool,
}

/// What a row of a picture is of.
#[derive(Debug, Clone, Copy, PartialEq, Eq)]
pub(crate) enum Event {
    Boot,
    Item(ShownItem),
    Stop,
    /// The number of points asked, which is of no lane.
    Points,
}

/// A row of a picture.
#[derive(Debug, Drop)]
pub(crate) struct Row {
    pub event: Event,
    pub label: Bytes,
}

/// Rows from top to bottom.
pub(crate) type RowList = ListOf<Row>;

/// The rows of a run: for each boot one, one for each of its items and one for its stop, and one for the number of points.
pub(crate) fn rows_of(alloc: Global, iface: &Interface, ended: &Ended) -> Result<RowList, NoMemory>
    ensures { IfOk result (λ rows. labels_in rows ≡ labels_of iface.now.facts ended.now) }
{
    let history = &ended.history;
    let places = places_of(alloc, history)?;
    let mut rows = RowList::new(alloc);
    add_boots(
        alloc,
        &mut rows,
        iface,
        history,
        &places,
        ended.trace.boots.as_slice(),
    )?;
    let label = numbered(alloc, b"points ", ended.trace.points)?;
    rows.push(Row {
        event: Event::Points,
        label,
    })?;
    Ok(rows)
}

// The rows of boots, numbered from 1.
fn add_boots(
    alloc: Global,
    rows: &mut RowList,
    iface: &Interface,
    history: &History,
    places: &Places,
    boots: &[BootLog],
) -> Result<(), NoMemory>
    requires { ArePlaces places.now.entries history.now.items }
    ensures { OnOk result (labels_in rows.new ≡ labels_in rows.old ++ labels_from iface.now.facts history.now.items 1 (map boot_of boots.now)) }
{
    'boots: for (at, boot) in boots.iter().enumerate() {
        add_boot(alloc, rows, at as u64 + 1)?;
        add_items(alloc, rows, iface, history, places, &boot.items)?;
        add_stop(alloc, rows, boot.stop)?;
    }
    Ok(())
}

// The row of a boot of this number.
fn add_boot(alloc: Global, rows: &mut RowList, number: u64) -> Result<(), NoMemory>
    ensures { OnOk result (labels_in rows.new ≡ labels_in rows.old ++ (codes "boot " ++ decimal number) ∷ []) }
{
    let label = numbered(alloc, b"boot ", number)?;
    rows.push(Row {
        event: Event::Boot,
        label,
    })
}

// The rows of items.
#[tactic(auto, using(std::proofs::lemmas::Grind::common_steps, sg_facts::proofs::Places::take_next))]
fn add_items(
    alloc: Global,
    rows: &mut RowList,
    iface: &Interface,
    history: &History,
    places: &Places,
    items: &ItemList,
) -> Result<(), NoMemory>
    requires { ArePlaces places.now.entries history.now.items }
    ensures { OnOk result (labels_in rows.new ≡ labels_in rows.old ++ map (label_of iface.now.facts history.now.items) items.now.items) }
{
    'items: for at in 0..items.len() {
        let item = items.at(at);
        let label = item_label(alloc, iface, history, places, &item)?;
        rows.push(Row {
            event: Event::Item(turn_of(&item)),
            label,
        })?;
    }
    Ok(())
}

// The row of a stop, where there was one.
fn add_stop(alloc: Global, rows: &mut RowList, stop: Option<u64>) -> Result<(), NoMemory>
    ensures { OnOk result (labels_in rows.new ≡ labels_in rows.old ++ stop_labels stop) }
{
    match stop {
        None => Ok(()),
        Some(point) => {
            let label = numbered(alloc, b"stop ", point)?;
            rows.push(Row {
                event: Event::Stop,
                label,
            })
        }
    }
}

// An item, as a picture shows it.
fn turn_of(item: &LentItem) -> ShownItem {
    let (asked, client) = match item.tag {
        LentTag::Client { client, .. } => (Asked::Call, client),
        LentTag::Walk { client, .. } => (Asked::Walk, client),
        LentTag::Load { client, .. } => (Asked::Load, client),
    };
    ShownItem {
        asked,
        client,
        waits: matches!(item.outcome, LentOutcome::Blocks),
    }
}
