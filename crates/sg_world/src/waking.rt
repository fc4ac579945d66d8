// Who waits is asked again where an answered call may have given it what it waits for.
ghost use Rattle.std.specs.Prelude.{◌≡◌, ◌&&◌, List, map, nat_lt, not};
ghost use Rattle.sg_facts.specs.Track.{is_live};
ghost use Rattle.sg_facts.specs.Inside.Rows.{track};
ghost use Rattle.sg_facts.specs.sg_base.declared.call.Call.{Call as IsCall};
ghost use Rattle.sg_facts.specs.sg_base.declared.reply.Reply.{Reply as IsReply};
ghost use Rattle.sg_clients.specs.WorldView.{wakes_seat, woken_seat};
ghost use Rattle.sg_facts.specs.declared.row.Row.{Row as IsRow};
ghost use Rattle.sg_world.specs.Inside.Waiting.{WaitOnLive, refuses};

use sg_clients::Clients;
use sg_facts::{Entry, Reply, Service};
use sg_replay::Engine;

/// Wakes whoever waits where a call that was committed wakes him: on the descriptor of an Ok of a wake-up, or on one that ended with it.
pub(crate) fn wake<S: Service>(clients: &mut Clients, engine: &Engine<S>, entry: &Entry)
    ensures { let facts = engine.now.tables.iface.facts in
        (rows : List IsRow) → engine.now.tracked.rows ≡ track facts rows entry.now.call entry.now.reply → WaitOnLive facts rows entry.now.call clients.old
        → clients.new ≡ map (woken_seat (wakes_seat facts rows entry.now.call entry.now.reply)) clients.old }
{
    let is_refusal = matches!(entry.reply, Reply::Refused(_));
    wake_by(clients, engine, entry.call.fun, entry.call.desc, is_refusal);
}

/// The same, by the function and the descriptor of the call, and by whether it was refused.
pub(crate) fn wake_by<S: Service>(
    clients: &mut Clients,
    engine: &Engine<S>,
    fun: u8,
    desc: u64,
    is_refusal: bool,
)
    ensures { let facts = engine.now.tables.iface.facts in
        (rows : List IsRow) (call : IsCall) (reply : IsReply) → call.fun ≡ fun → call.desc ≡ desc → refuses reply ≡ is_refusal
        → engine.now.tracked.rows ≡ track facts rows call reply → WaitOnLive facts rows call clients.old
        → clients.new ≡ map (woken_seat (wakes_seat facts rows call reply)) clients.old }
{
    if is_refusal {
        return;
    }
    let interface = engine.interface();
    let fun = interface.fun(fun);
    if fun.wakes() || fun.is_terminal() {
        clients.wake(desc);
    }
    if fun.is_terminal() && interface.shape.subtree {
        clients.wake_where(
            |desc: u64| -> bool
                ensures { result ≡ (nat_lt 0 desc && not (is_live engine.entry.now.tracked.rows desc)) }
            { desc > 0 && engine.row(desc).is_none() },
        );
    }
}
