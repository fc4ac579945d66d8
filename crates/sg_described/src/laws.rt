// Laws of the definitions.
ghost use Rattle.std.specs.Prelude.{◌≡◌, ℕ, true, List};
ghost use Rattle.sg_facts.specs.Facts.{Facts};
ghost use Rattle.sg_described.specs.Described.{Described};
ghost use Rattle.sg_described.specs.DescribedLaws.{KeepsLaws};
ghost use Rattle.sg_described.specs.NeverZero.{AreNeverZero, is_listed, never_zero};
ghost use Rattle.sg_described.specs.Safe.{is_safe};

/// A described service that is safe keeps the laws of every service.
pub fn safe_services_keep_laws()
    ensures { (d : Described) → is_safe d ≡ true → KeepsLaws d }
{}

/// The states in which a field is never 0 keep to what such states keep to, and are the most that do.
pub fn never_zero_is_greatest()
    ensures keep { (facts : Facts) (x : ℕ) → AreNeverZero facts x (never_zero facts x) }
    ensures most { (facts : Facts) (x : ℕ) (states : List ℕ) (state : ℕ)
        → AreNeverZero facts x states → is_listed states state ≡ true → is_listed (never_zero facts x) state ≡ true }
{}
