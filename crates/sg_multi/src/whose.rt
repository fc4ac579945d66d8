// Whose turn it is.
ghost use Rattle.std.specs.Prelude.{◌≡◌, ◌≤◌, ◌<◌, IfSome, None, false, length, true};
ghost use Rattle.sg_multi.specs.sg_sim.sg_plain.Calls.{most_client};
ghost use Rattle.sg_multi.specs.Inside.Turns.{IsFirstAfter, IsOverNow, KeepsRunning, NobodyGoesNow, NoneAfter, NoneScheduled, TakesNextTurn, is_at_setup};

use crate::running::Running;
use crate::{Describes, most_client};
use sg_facts::FIRST_CLIENT;
use sg_script::MultiScript;

/// A turn that is to be taken: its client, and how many turns of the schedule are after it.
#[derive(Clone, Copy, Debug)]
pub(crate) struct NextTurn {
    pub(crate) client: u8,
    pub(crate) passed: usize,
}

/// Whose turn it is: client 1's until the setup is done, then who the schedule says and can, then who is next and can; None only where
/// nobody can.
pub(crate) fn next_turn<N: Describes>(
    running: &Running<N>,
    script: &MultiScript,
) -> Option<NextTurn>
    requires keeps { KeepsRunning script.now running.now }
    ensures first { IfSome result (λ turn. 1 ≤ turn.client) }
    ensures last { IfSome result (λ turn. turn.client ≤ most_client script.now.clients) }
    ensures setup { IfSome result (λ turn. is_at_setup script.now running.now ≡ true → turn.client ≡ 1) }
    ensures next { IfSome result (λ turn. TakesNextTurn script.now running.now turn.client turn.passed) }
    ensures over { result ≡ None → IsOverNow script.now running.now }
{
    if running.is_setting_up(script) {
        return Some(NextTurn {
            client: FIRST_CLIENT,
            passed: running.passed,
        });
    }
    match next_scheduled(running, script) {
        Some(turn) => Some(turn),
        None => next_in_circle(running, script),
    }
}

// The next turn of the schedule whose client can take it.
fn next_scheduled<N: Describes>(running: &Running<N>, script: &MultiScript) -> Option<NextTurn>
    requires settled { is_at_setup script.now running.now ≡ false }
    requires keeps { KeepsRunning script.now running.now }
    ensures first { IfSome result (λ turn. 1 ≤ turn.client) }
    ensures last { IfSome result (λ turn. turn.client ≤ most_client script.now.clients) }
    ensures next { IfSome result (λ turn. TakesNextTurn script.now running.now turn.client turn.passed) }
    ensures none { result ≡ None → NoneScheduled script.now running.now (length script.now.schedule) }
{
    let schedule = script.schedule.as_slice();
    let clients = most_client(script.clients.as_slice());
    'turns: for at in running.passed..schedule.len() {
        let client = schedule[at];
        if client >= FIRST_CLIENT && client <= clients && running.can_go(script, client) {
            return Some(NextTurn {
                client,
                passed: at + 1,
            });
        }
    }
    None
}

// The turn of the next client that can take one: in ascending numbers after the client of the last turn, and then from 1 on. The schedule
// is over then.
fn next_in_circle<N: Describes>(running: &Running<N>, script: &MultiScript) -> Option<NextTurn>
    requires settled { is_at_setup script.now running.now ≡ false }
    requires none { NoneScheduled script.now running.now (length script.now.schedule) }
    requires keeps { KeepsRunning script.now running.now }
    ensures first { IfSome result (λ turn. 1 ≤ turn.client) }
    ensures last { IfSome result (λ turn. turn.client ≤ most_client script.now.clients) }
    ensures next { IfSome result (λ turn. TakesNextTurn script.now running.now turn.client turn.passed) }
    ensures over { result ≡ None → NobodyGoesNow script.now running.now }
{
    let passed = script.schedule.len();
    let clients = most_client(script.clients.as_slice());
    if let Some(client) = next_after(running, script, running.last, clients) {
        return Some(NextTurn { client, passed });
    }
    match next_after(running, script, 0, running.last) {
        Some(client) => Some(NextTurn { client, passed }),
        None => None,
    }
}

// The first client after one, and up to another, that can take a turn.
fn next_after<N: Describes>(
    running: &Running<N>,
    script: &MultiScript,
    behind: u8,
    last: u8,
) -> Option<u8>
    requires keeps { KeepsRunning script.now running.now }
    requires last { last ≤ most_client script.now.clients }
    ensures found { IfSome result (IsFirstAfter script.now running.now behind last) }
    ensures none { result ≡ None → NoneAfter script.now running.now behind last }
{
    'clients: for before in behind..last {
        if running.can_go(script, before + 1) {
            return Some(before + 1);
        }
    }
    None
}
