// Pictures as documents.
ghost use Rattle.std.specs.Prelude.{◌≡◌, ◌++◌, ◌∷◌, List, true, map, codes, ℕ};
ghost use Rattle.std.specs.List.{list_all};
ghost use Rattle.sg_facts.specs.Facts.{Facts};
ghost use Rattle.sg_hist.specs.declared.ended.Ended.{Ended};
ghost use Rattle.sg_draw.specs.Labels.{labels_of};
ghost use Rattle.sg_draw.specs.Pictures.{IsPictureOf, heads_of, legend, title_of};
ghost use Rattle.sg_draw.specs.Shown.{escaped};
ghost use Rattle.test_pictures.specs.Read.{is_allowed, pieces, shown_texts};
ghost use Rattle.test_pictures.specs.Written.{drawn_early, locks, stopped_early};

/// The picture of a run, byte by byte.
pub fn document_drawn()
    ensures drawn { IsPictureOf locks stopped_early drawn_early }
{}

/// Who reads a picture of any run piece by piece, from each `<` to the next, finds pieces of a few kinds alone, and the texts of its rows.
pub fn document_read()
    ensures allowed { (facts : Facts) → (ended : Ended) → (bytes : List ℕ) → IsPictureOf facts ended bytes → list_all is_allowed (pieces bytes) ≡ true }
    ensures shown { (facts : Facts) → (ended : Ended) → (bytes : List ℕ) → IsPictureOf facts ended bytes
        → shown_texts bytes ≡ map escaped (title_of facts ∷ heads_of ended.ends ++ labels_of facts ended ++ legend) }
{}

/// No picture has a comment, nor a rule or a tag that hides texts, wherever it stands.
pub fn hidden()
    ensures comment { (facts : Facts) → (ended : Ended) → (before after : List ℕ) → IsPictureOf facts ended (before ++ codes "<!--" ++ after) → ⊥ }
    ensures rule { (facts : Facts) → (ended : Ended) → (before after : List ℕ) → IsPictureOf facts ended (before ++ codes "<style>text{display:none}" ++ after) → ⊥ }
    ensures tag { (facts : Facts) → (ended : Ended) → (before after : List ℕ)
        → IsPictureOf facts ended (before ++ codes "<text class='l' display='none' x='" ++ after) → ⊥ }
{}

/// None has a script, nor an image from elsewhere.
pub fn scripted()
    ensures script { (facts : Facts) → (ended : Ended) → (before after : List ℕ) → IsPictureOf facts ended (before ++ codes "<script" ++ after) → ⊥ }
    ensures image { (facts : Facts) → (ended : Ended) → (before after : List ℕ)
        → IsPictureOf facts ended (before ++ codes "<image href='http://elsewhere/" ++ after) → ⊥ }
{}

/// None has an element that isn't closed, nor the end of one that isn't open.
pub fn left_open()
    ensures open_one { (facts : Facts) → (ended : Ended) → (before after : List ℕ) → IsPictureOf facts ended (before ++ codes "<g>" ++ after) → ⊥ }
    ensures closed { (facts : Facts) → (ended : Ended) → (before after : List ℕ) → IsPictureOf facts ended (before ++ codes "</g>" ++ after) → ⊥ }
{}

/// None has a name in its description.
pub fn name_described()
    ensures name { (facts : Facts) → (ended : Ended) → (before after : List ℕ)
        → IsPictureOf facts ended (before ++ codes "<desc>A run with the file a&b" ++ after) → ⊥ }
{}
