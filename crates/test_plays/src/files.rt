// Plays of files.
ghost use Rattle.test_recovery.specs.sg_facts.Laws.{whole};
ghost use Rattle.test_plays.specs.FilePlays.{held_reply, held_reply_history};
ghost use Rattle.sg_plain.specs.Inside.Turns.{IsPlainPlay};
ghost use Rattle.test_recovery.specs.test_histories.sg_ramfs.RamfsFacts.{ramfs_facts};
ghost use Rattle.test_recovery.specs.test_histories.sg_ramfs.RamfsTable.{ramfs_table};

/// A reply that others don't see is committed when it is handed over, after what others did meanwhile.
pub fn held_reply()
    ensures play { IsPlainPlay (whole ramfs_facts) ramfs_table held_reply held_reply_history }
{}
