// Pages.
ghost use Rattle.sg_facts.specs.sg_base.declared.reply.Code.TheVariants.{NoParent};
ghost use Rattle.sg_facts.specs.Laws.{whole};
ghost use Rattle.sg_facts.specs.Legal.{IsLegal};
ghost use Rattle.sg_load.specs.Services.sg_mm.MmFacts.{mm_facts};
ghost use Rattle.sg_load.specs.Services.sg_mm.MmTable.{mm_table};
ghost use Rattle.test_histories.specs.Written.{ok, ok_at, refused, with_reply};
ghost use Rattle.test_histories.specs.MmRows.{occupied, subtree_goes, page_refusals, alias_released};

/// One address of a space has one page.
pub fn occupied()
    ensures legal { IsLegal (whole mm_facts) mm_table occupied }
    ensures wrong { IsLegal (whole mm_facts) mm_table (with_reply 1 (ok_at 2) occupied) → ⊥ }
{}

/// A page goes with all that was made from it: these are neither found nor released again.
pub fn subtree_goes()
    ensures legal { IsLegal (whole mm_facts) mm_table subtree_goes }
    ensures found { IsLegal (whole mm_facts) mm_table (with_reply 4 (ok_at 2) subtree_goes) → ⊥ }
    ensures released { IsLegal (whole mm_facts) mm_table (with_reply 5 ok subtree_goes) → ⊥ }
{}

/// A page that there is none of is no parent, and none is found.
pub fn page_refusals()
    ensures legal { IsLegal (whole mm_facts) mm_table page_refusals }
    ensures wrong { IsLegal (whole mm_facts) mm_table (with_reply 1 ok page_refusals) → ⊥ }
{}

/// A client makes a page from that of another client, and releases it.
pub fn alias_released()
    ensures legal { IsLegal (whole mm_facts) mm_table alias_released }
    ensures wrong { IsLegal (whole mm_facts) mm_table (with_reply 1 (refused NoParent) alias_released) → ⊥ }
{}
