// What ends an engine.
use sg_replay::Engine;
use test_tables::facts::Service;

/// Ends an engine where it stands. All its parts are written out wherever one is dropped, so that is done here alone.
pub(crate) fn discard<S: Service>(_engine: Engine<S>) {}
