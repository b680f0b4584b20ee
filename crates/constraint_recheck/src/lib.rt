//! Tests of certificates over the plain tree of a query, and the search for one.
#![tactic(auto)]

ghost use Rattle.std.specs.Prelude.{ℕ, List, Contains, All};
ghost use Rattle.std.specs.Bool.{Decides};
ghost use Rattle.rpe.specs.Regex.{Regex};
ghost use Rattle.query_spec.specs.Query.{Condition};
ghost use Rattle.site_spec.specs.Site.{Scope};
ghost use Rattle.constraint_spec.specs.declared.Constraint.{Constraint};
ghost use Rattle.constraint_spec.specs.Entailed.{IsEntailed};
ghost use Rattle.constraint_spec.specs.Certificate.{Certificate, IsCertificate};
ghost use Rattle.constraint_recheck.specs.Entails.{Tests, AreTests, IsKnown, AreKnown, entails};
ghost use Rattle.constraint_recheck.specs.Recheck.{recheck};

mod search;

/// Where inclusion is decided between the expressions of the conditions, `entails` is true exactly
/// where the conditions entail the condition.
pub fn entailment_is_decided()
    ensures { (E : List Regex) (tests : Tests) → AreTests (Contains E) tests
        → (version : ℕ) (S : List Condition) → All (IsKnown (Contains E)) S
        → (c : Condition) → IsKnown (Contains E) c
        → Decides (entails tests version S c) (IsEntailed version S c) }
{}

/// Where inclusion is decided between the expressions of the query, `recheck` is true exactly for
/// certificates.
pub fn certificates_are_decided()
    ensures { (E : List Regex) (tests : Tests) → AreTests (Contains E) tests
        → (q : Scope) → AreKnown (Contains E) q → (c : Constraint) (x : Certificate)
        → Decides (recheck tests q c x) (IsCertificate q c x) }
{}
