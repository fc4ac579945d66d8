// Laws of the definitions.
ghost use Rattle.sg_track.specs.Tracked.{TracksSound};

/// What a service of an allowed shape answers may be tracked: an Ok that leaves a sound object. A creation asks for its
/// room, parent and id beside.
pub fn sound_oks_are_tracked()
    ensures { (facts : _) (t : _) (call : _) (good : _) (o : _) → TracksSound facts t call good o }
{}
