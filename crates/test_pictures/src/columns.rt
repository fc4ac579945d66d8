// Pictures in columns.
ghost use Rattle.std.specs.Prelude.{◌≡◌, ◌++◌, ◌∷◌, [], List, true, length, map, codes, ℕ};
ghost use Rattle.std.specs.List.{list_all};
ghost use Rattle.sg_facts.specs.Facts.{Facts};
ghost use Rattle.sg_hist.specs.declared.ended.Ended.{Ended};
ghost use Rattle.sg_draw.specs.Labels.{labels_of};
ghost use Rattle.sg_draw.specs.Pictures.{AreColumnsOf, legend, marks_width, title_of};
ghost use Rattle.sg_draw.specs.Shown.{visible};
ghost use Rattle.test_pictures.specs.Read.{column_texts, is_harmless};
ghost use Rattle.test_pictures.specs.Written.{locks, printed_early, stopped_early};

/// The picture of a run in columns, byte by byte.
pub fn columns_drawn()
    ensures drawn { AreColumnsOf locks stopped_early printed_early }
{}

/// Who reads a picture of any run in columns line by line, after as many columns as the lanes have, finds the texts of its rows; and no byte
/// does harm to a terminal.
pub fn columns_read()
    ensures texts { (facts : Facts) → (ended : Ended) → (bytes : List ℕ) → AreColumnsOf facts ended bytes
        → column_texts (marks_width (length ended.ends)) bytes ≡ map visible (title_of facts ∷ labels_of facts ended ++ legend) ++ [] ∷ [] }
    ensures harmless { (facts : Facts) → (ended : Ended) → (bytes : List ℕ) → AreColumnsOf facts ended bytes → list_all is_harmless bytes ≡ true }
{}

/// No picture has an escape sequence, wherever it stands; and of a run there is none with another lane's head, or with a word in the lanes.
pub fn columns_refused()
    ensures escape { (facts : Facts) → (ended : Ended) → (before after : List ℕ) → AreColumnsOf facts ended (before ++ 27 ∷ after) → ⊥ }
    ensures head { (after : List ℕ) → AreColumnsOf locks stopped_early (codes "c2   service  A run" ++ after) → ⊥ }
    ensures word { (after : List ℕ) → AreColumnsOf locks stopped_early (codes "c1   service  A run of the service lock\nstop 3        boot 1\n" ++ after) → ⊥ }
{}
