// What the marks stand for.

pub(crate) const CALL: &[u8] = b"a call of a client, at its client and at the service";

pub(crate) const WALK: &[u8] = b"a call of a walk, which rebuilds a descriptor";

pub(crate) const LOAD: &[u8] = b"a file is loaded";

pub(crate) const WAIT: &[u8] = b"a client waits";

pub(crate) const BOOT: &[u8] = b"the service boots";

pub(crate) const STOP: &[u8] = b"the service stops";
