// Laws of addresses, each the contract of a function that does nothing.
ghost use Rattle.std.specs.Prelude.{◌≡◌, ℕ, List, Option};
ghost use Rattle.sd_value.specs.declared.Term.{Term};
ghost use Rattle.page_spec.specs.Address.{IsAddressable, TermOf};
ghost use Rattle.page_spec.specs.Show as spec;

/// Two terms have two addresses, and a target names at most one term.
pub fn addresses_differ()
    ensures addresses { (t u : Term) → IsAddressable t → IsAddressable u
        → spec.address t ≡ spec.address u → t ≡ u }
    ensures targets { (root : Option (List ℕ)) (target : List ℕ) (t u : Term)
        → TermOf root target t → TermOf root target u → t ≡ u }
{}
