// Files.
ghost use Rattle.std.specs.Prelude.{[]};
ghost use Rattle.sg_facts.specs.Laws.{whole};
ghost use Rattle.sg_facts.specs.Legal.{IsLegal};
ghost use Rattle.sg_load.specs.Services.sg_ramfs.RamfsFacts.{ramfs_facts};
ghost use Rattle.sg_load.specs.Services.sg_ramfs.RamfsTable.{ramfs_table};
ghost use Rattle.test_histories.specs.Written.{ok_with, ok_bytes, with_reply};
ghost use Rattle.test_histories.specs.RamfsRows.{file_refusals, one_file, own_alone};

/// Bad names, a parent that has a child still, or that there is none of, long reads and far places are refused.
pub fn file_refusals()
    ensures legal { IsLegal (whole ramfs_facts) ramfs_table file_refusals }
    ensures wrong { IsLegal (whole ramfs_facts) ramfs_table (with_reply 5 (ok_with 0 0) file_refusals) → ⊥ }
{}

/// Descriptors of one path have one file, and no file has a gap.
pub fn one_file()
    ensures legal { IsLegal (whole ramfs_facts) ramfs_table one_file }
    ensures read { IsLegal (whole ramfs_facts) ramfs_table (with_reply 3 (ok_bytes 0 []) one_file) → ⊥ }
    ensures gap { IsLegal (whole ramfs_facts) ramfs_table (with_reply 5 (ok_with 0 1) one_file) → ⊥ }
{}

/// A client uses what it made alone, and a read past the end of a file gives nothing.
pub fn own_alone()
    ensures legal { IsLegal (whole ramfs_facts) ramfs_table own_alone }
    ensures wrong { IsLegal (whole ramfs_facts) ramfs_table (with_reply 1 (ok_bytes 0 []) own_alone) → ⊥ }
{}
