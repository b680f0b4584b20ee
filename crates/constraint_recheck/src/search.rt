//! The search for certificates over the plain tree of a query: it finds one exactly if there is one and
//! the search stays within its budget. The engine's functions are those of this search.

ghost use Rattle.std.specs.Prelude.{List, Contains};
ghost use Rattle.rpe.specs.Regex.{Regex};
ghost use Rattle.site_spec.specs.Site.{Scope};
ghost use Rattle.constraint_spec.specs.declared.Constraint.{Constraint};
ghost use Rattle.constraint_spec.specs.Certificate.{IsCertificate};
ghost use Rattle.constraint_recheck.specs.Entails.{Tests, AreTests, AreKnown};
ghost use Rattle.constraint_recheck.specs.Options.{Finds};
ghost use Rattle.constraint_recheck.specs.Search.{find_certificate, StaysWithinBudget};

/// By tests that decide inclusion between the expressions of the query, what is found is a certificate
/// of the constraint, and the search stays within its budget. If nothing is found, the constraint has
/// no certificate, or the search doesn't. Which tests these are makes no difference.
pub fn a_search_is_exact()
    ensures { (E : List Regex) (tests : Tests) → AreTests (Contains E) tests
        → (q : Scope) → AreKnown (Contains E) q → (c : Constraint)
        → Finds (λ x. IsCertificate q c x × StaysWithinBudget q c) (find_certificate tests q c) }
{}
