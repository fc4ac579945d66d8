// One client's calls, each with the reply that it is to get.
ghost use Rattle.std.specs.Prelude.{◌≡◌};

use crate::answers::tells_reply;
use crate::events::Asked;
use crate::run::{Judge, Run, Unmade, judged, stops_at};
use sg_facts::{Service, Stops, Tables, Trace};
use std::alloc::Global;

/// Makes the calls of a text, as `lock_take 1 = ok` on each line, with stops at points: each gets its reply and is one entry, and the
/// service stops at all these points.
pub fn answered<S: Service>(
    alloc: Global,
    image: S::Image,
    tables: Tables,
    points: &[u64],
    text: &str,
) -> Result<(), Unmade>
    requires { tables.iface.facts ≡ S.facts }
{
    let stops = stops_at(alloc, points)?;
    judged::<S, _, _>(alloc, image, tables, 1, stops, &Expected { points, text })?
}

/// The calls of a text, made in a world with stops at points.
#[derive(Clone, Copy, Debug)]
struct Expected<'a> {
    points: &'a [u64],
    text: &'a str,
}

impl<S: Service, T: Stops> Judge<S, T> for Expected<'_> {
    type Said = Result<(), Unmade>;

    fn judge(&self, alloc: Global, run: &mut Run<S, T>) -> Result<(), Unmade> {
        answers_all(alloc, run, self.text)?;
        if run.world().history().len() == self.text.lines().count()
            && stopped_at(run.world().trace(), self.points)
        {
            Ok(())
        } else {
            Err(Unmade::OtherRun)
        }
    }
}

// Makes the calls of a text, each of which gets its reply.
fn answers_all<S: Service, T: Stops>(
    alloc: Global,
    run: &mut Run<S, T>,
    text: &str,
) -> Result<(), Unmade> {
    for (at, line) in text.lines().enumerate() {
        if !is_answered(alloc, run, line)? {
            return Err(Unmade::Otherwise { at });
        }
    }
    Ok(())
}

// Makes the call of a line, and says whether it gets its reply.
fn is_answered<S: Service, T: Stops>(
    alloc: Global,
    run: &mut Run<S, T>,
    line: &str,
) -> Result<bool, Unmade> {
    let Some((call, told)) = line.split_once(" = ") else {
        return Err(Unmade::Unread);
    };
    let Some(asked) = Asked::read(call) else {
        return Err(Unmade::Unread);
    };
    match run.call(alloc, 1, &asked)? {
        Some(reply) => Ok(tells_reply(told, &reply)),
        None => Ok(false),
    }
}

// Whether the stops of a run were at these points.
fn stopped_at(trace: &Trace, points: &[u64]) -> bool {
    let boots = trace.boots.as_slice();
    boots
        .iter()
        .filter_map(|boot| boot.stop)
        .eq(points.iter().copied())
}
