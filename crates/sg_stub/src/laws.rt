// A law of tables.
ghost use Rattle.std.specs.Prelude.{◌≡◌, List};
ghost use Rattle.sg_check.specs.sg_facts.Interface.{Declared};
ghost use Rattle.sg_check.specs.sg_facts.Tables.{AreTables};
ghost use Rattle.sg_check.specs.sg_facts.declared.tables.WalkLine.{WalkLine};

/// An interface has one table: two lists of lines that are its tables are equal.
pub fn one_table()
    ensures { (i : Declared) (one other : List WalkLine) → AreTables i one → AreTables i other → one ≡ other }
{}
