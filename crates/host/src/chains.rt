// The law over many calls.
ghost use Rattle.std.specs.Prelude.{ℕ, List, ◌∷◌};
ghost use Rattle.operators.specs.Catalogue.{catalogue};
ghost use Rattle.packed_calls.specs.Laws.{PackedKept};
ghost use Rattle.host.specs.Host.{Linked, last_of};

/// Shows the law over chains: where each granted call of a host is on the bytes that the granted one before it left, whichever the
/// rules and however many, each partition of the last plan's root has the same rows in the same order as that of the first.
pub fn shows_chains()
    ensures { (bytes next : List ℕ) (more : List (List ℕ)) → Linked bytes (next ∷ more) → PackedKept catalogue bytes (last_of next more) }
{}
