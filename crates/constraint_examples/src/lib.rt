//! Worked constraints over small queries: each is the contract of a function that does nothing, so
//! a wrong definition is refused before any engine is built on it.
#![tactic(auto)]

ghost use Rattle.std.specs.Prelude.{◌≡◌, [], ◌∷◌, codes};
ghost use Rattle.constraint_spec.specs.declared.Constraint.TheVariants.{Reachable, Only, Never, One};
ghost use Rattle.constraint_spec.specs.Certificate.{Certificate, IsCertificate};
ghost use Rattle.definition_examples.specs.BibliographySite as site;
ghost use Rattle.constraint_examples.specs.Papers as papers;
ghost use Rattle.constraint_examples.specs.Labels as labels;
ghost use Rattle.constraint_examples.specs.Schema as schema;
ghost use Rattle.site_spec.specs.Schema.{schema_edges};

/// The papers' site: a year's page links by `Paper` to papers' pages alone, and by `Year` exactly
/// once; each paper's page is reached from the home page, by link 2. A paper's page may have any
/// label, so nothing shows that it has none by `x`.
pub fn papers_certificates()
    ensures only { IsCertificate site.scope
        (Only papers.year papers.paper_label papers.paper) [] }
    ensures one { IsCertificate site.scope (One papers.year papers.year_label)
        (papers.link_3 ∷ papers.link_3 ∷ papers.link_3 ∷ papers.link_3 ∷ []) }
    ensures reachable { IsCertificate site.scope (Reachable papers.paper papers.root)
        (papers.link_2 ∷ papers.link_2 ∷ papers.link_2 ∷ papers.link_2 ∷ []) }
    ensures never { (x : Certificate) → IsCertificate site.scope
        (Never papers.paper (codes "x")) x → ⊥ }
{}

/// Where the home page links only to the pages of papers with a title, nothing shows that it
/// reaches them all.
pub fn titled_papers()
    ensures { (x : Certificate) → IsCertificate papers.titled
        (Reachable papers.paper papers.root) x → ⊥ }
{}

/// `C(x), x -> a -> y, a in {5}` and the link `F(x) -> a -> y`: under version 1 the link can't
/// carry the label `5`, and under version 2 it may, since the Int 5 and the Text `5` are twins.
pub fn twin_labels()
    ensures version_1 { IsCertificate (labels.scope 1) (Never labels.f (codes "5")) [] }
    ensures version_2 { (x : Certificate) → IsCertificate (labels.scope 2)
        (Never labels.f (codes "5")) x → ⊥ }
{}

/// The papers' links by number, with the paths and the conditions of their blocks.
pub fn papers_schema()
    ensures { schema_edges site.query ≡ schema.edges }
{}
