// Plays as texts have them.
ghost use Rattle.std.specs.Prelude.{◌≡◌};

use crate::run::{Judge, Run, Unmade, judged, stops_at};
use crate::seen::shows;
use crate::words::headed;
use sg_facts::{PointList, Service, Stops, Tables};
use std::alloc::Global;

/// The parts of a text that tells a play.
#[derive(Clone, Copy, Debug)]
struct Parts<'a> {
    /// How many clients it has.
    clients: u8,
    /// The points of its stops.
    stops: &'a str,
    /// Its events, each on a line.
    events: &'a str,
    /// What is seen of the world at the end, each on a line.
    seen: &'a str,
    /// The printed run.
    printed: &'a str,
}

impl<'a> Parts<'a> {
    // The parts of a text: `clients 2` and `stops 9 15` on the first lines, the events, and after an empty line each what is seen and the
    // printed run; None where the text has other parts.
    fn read(text: &'a str) -> Option<Self> {
        let (clients, lines) = headed(text, "clients")?;
        let (stops, lines) = headed(lines, "stops")?;
        let (events, lines) = lines.split_once("\n\n")?;
        let (seen, printed) = lines.split_once("\n\n")?;
        let clients = clients.parse().ok()?;
        Some(Parts {
            clients,
            stops,
            events,
            seen,
            printed,
        })
    }
}

/// Plays what a text tells: each event goes as it is told, all that is told at the end is seen and printed, and each client waits or has
/// left then.
pub fn play<S: Service>(
    alloc: Global,
    image: S::Image,
    tables: Tables,
    text: &str,
) -> Result<(), Unmade>
    requires { tables.iface.facts ≡ S.facts }
{
    let Some(parts) = Parts::read(text) else {
        return Err(Unmade::Unread);
    };
    let points = points_of(alloc, parts.stops)?;
    let stops = stops_at(alloc, points.as_slice())?;
    judged::<S, _, _>(alloc, image, tables, parts.clients, stops, &parts)?
}

impl<S: Service, T: Stops> Judge<S, T> for Parts<'_> {
    type Said = Result<(), Unmade>;

    // Each event goes as it is told, and the run ends as it is told.
    fn judge(&self, alloc: Global, run: &mut Run<S, T>) -> Result<(), Unmade> {
        run.make_all(alloc, self.events)?;
        ends_as_told(alloc, run, self)
    }
}

// A run ended as the parts of a text tell.
fn ends_as_told<S: Service, T: Stops>(
    alloc: Global,
    run: &Run<S, T>,
    parts: &Parts,
) -> Result<(), Unmade> {
    sees(run, parts.seen)?;
    let printed = run.printed(alloc)?;
    prints(printed.as_slice(), parts.printed)?;
    if run.world().all_blocked() {
        Ok(())
    } else {
        Err(Unmade::NotAtRest)
    }
}

// All that lines tell is seen.
fn sees<S: Service, T: Stops>(run: &Run<S, T>, lines: &str) -> Result<(), Unmade> {
    for (at, line) in lines.lines().enumerate() {
        if !shows(run, line) {
            return Err(Unmade::Unseen { at });
        }
    }
    Ok(())
}

// A printed run is this text.
fn prints(printed: &[u8], text: &str) -> Result<(), Unmade> {
    match str::from_utf8(printed) {
        Ok(printed) if printed == text => Ok(()),
        Ok(printed) => Err(Unmade::Printed {
            at: alike(printed, text),
        }),
        Err(_) => Err(Unmade::Printed { at: 0 }),
    }
}

// How many lines two texts have in common at the front.
fn alike(one: &str, other: &str) -> usize {
    for (at, (line, told)) in one.lines().zip(other.lines()).enumerate() {
        if line != told {
            return at;
        }
    }
    one.lines().count()
}

// The points of stops, as a text has them.
fn points_of(alloc: Global, text: &str) -> Result<PointList, Unmade> {
    let mut points = PointList::new(alloc);
    for word in text.split_whitespace() {
        match word.parse() {
            Ok(point) => points.push(point)?,
            Err(_) => return Err(Unmade::Unread),
        }
    }
    Ok(points)
}
