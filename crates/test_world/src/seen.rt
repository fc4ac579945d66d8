// Whether texts tell what is seen of a world.
use crate::run::Run;
use crate::words::first_word;
use sg_discard::{Mark, MarkKind, Phase, Withdrawn};
use sg_facts::{Service, Stops};

/// Whether a line tells what is seen of a world:
/// - `up` or `down`: whether its service runs
/// - `ends left blocked`: the phase of each client
/// - `seqs 3 1`: the number of each client's last entry
/// - `marks 1 offer entry answer 2 leave`: its marks, after the number of their client
/// - `withdrawn 2 1 4 idle asked`: its only withdrawn call, by client and number, the number of entries then, and the phase of each client
///   just before
/// - `entries 3`, `points 18`, `refused 0`: how many entries and points it has, and how many of its steps wanted memory
pub fn shows<S: Service, T: Stops>(run: &Run<S, T>, line: &str) -> bool {
    match first_word(line) {
        ("up", "") => run.world().service().is_some(),
        ("down", "") => run.world().service().is_none(),
        ("ends", names) => ends_in(run, names),
        ("seqs", numbers) => counts(run, numbers),
        ("marks", marks) => are_marks(run.world().marks(), marks),
        ("withdrawn", call) => are_withdrawn(run.world().withdrawn(), call),
        ("entries", number) => number.parse() == Ok(run.world().history().len()),
        ("points", number) => number.parse() == Ok(run.world().trace().points),
        ("refused", number) => number.parse() == Ok(run.world().refused()),
        _ => false,
    }
}

// Whether the clients are in phases of these names.
fn ends_in<S: Service, T: Stops>(run: &Run<S, T>, names: &str) -> bool {
    (1..=run.clients())
        .map(|client| run.phase(client))
        .eq(names.split_whitespace().map(phase_of))
}

// Whether the clients' last entries have these numbers.
fn counts<S: Service, T: Stops>(run: &Run<S, T>, numbers: &str) -> bool {
    (1..=run.clients())
        .map(|client| run.seq(client))
        .eq(numbers.split_whitespace().map(|word| word.parse().ok()))
}

// Whether marks are those that a text names, each client's after its number.
fn are_marks(marks: &[Mark], text: &str) -> bool {
    let mut client = 0;
    let mut marks = marks;
    for word in text.split_whitespace() {
        match (word.parse(), marks) {
            (Ok(number), _) => client = number,
            (Err(_), [first, more @ ..]) if is_mark(first, client, word) => marks = more,
            _ => return false,
        }
    }
    marks.is_empty()
}

// Whether a mark is of a client, and of the kind of a name.
fn is_mark(mark: &Mark, client: u8, name: &str) -> bool {
    mark.client == client && kind_of(name) == Some(mark.kind)
}

// Whether there is one withdrawn call, and it is this.
fn are_withdrawn(withdrawn: &[Withdrawn], text: &str) -> bool {
    match withdrawn {
        [only] => is_withdrawn(only, text),
        _ => false,
    }
}

// Whether a withdrawn call is this: its client and number, the number of entries, and the phase of each client.
fn is_withdrawn(withdrawn: &Withdrawn, text: &str) -> bool {
    let (client, behind) = first_word(text);
    let (seq, behind) = first_word(behind);
    let (at, names) = first_word(behind);
    client.parse() == Ok(withdrawn.call.client)
        && seq.parse() == Ok(withdrawn.call.seq)
        && at.parse() == Ok(withdrawn.at)
        && are_phases(withdrawn.phases.as_slice(), names)
}

// Whether phases have these names.
fn are_phases(phases: &[Phase], names: &str) -> bool {
    phases
        .iter()
        .map(|phase| Some(*phase))
        .eq(names.split_whitespace().map(phase_of))
}

// The phase of a name.
fn phase_of(name: &str) -> Option<Phase> {
    match name {
        "idle" => Some(Phase::Idle),
        "asked" => Some(Phase::Asked),
        "held" => Some(Phase::Held),
        "receipted" => Some(Phase::Receipted),
        "blocked" => Some(Phase::Blocked),
        "left" => Some(Phase::Left),
        _ => None,
    }
}

// The kind of mark of a name.
fn kind_of(name: &str) -> Option<MarkKind> {
    match name {
        "offer" => Some(MarkKind::Offer),
        "entry" => Some(MarkKind::Entry),
        "answer" => Some(MarkKind::Answer),
        "withdraw" => Some(MarkKind::Withdraw),
        "leave" => Some(MarkKind::Leave),
        _ => None,
    }
}
