//! What a world keeps after every event, and that each kind of event keeps it. There is no code here: `specs/` has the words, `proofs/`
//! what is shown of them, for the crates above.
//!
//! The events that ask the service nothing come first: an offer, a refusal by the guard, a reply that is handed over, committed or
//! lost, a call that is withdrawn, a client that leaves, a stop and a boot. The room `Advancing` has replays and loads, the room
//! `Committing` what the service is asked for a client, and what is committed of it.
#![tactic(auto)]
