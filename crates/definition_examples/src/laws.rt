// Laws of the definitions, each the contract of a function that does nothing.
ghost use Rattle.std.specs.Prelude.{◌≡◌, ◌↔◌, ℕ, List, Option};
ghost use Rattle.sd_value.specs.Names.{Word};
ghost use Rattle.sd_value.specs.declared.Term.{Term};
ghost use Rattle.sd_value.specs.declared.Value.{Value};
ghost use Rattle.query_spec.specs.Holds as query;
ghost use Rattle.tmpl.specs.Body.{TemplateFile};
ghost use Rattle.tmpl.specs.declared.Cmp.{Cmp};
ghost use Rattle.tmpl.specs.declared.Expr.{Expr};
ghost use Rattle.tmpl.specs.declared.Order.{Order};
ghost use Rattle.page_spec.specs.declared.Outcome.{Outcome};
ghost use Rattle.page_spec.specs.Site.{Site, Env, Values, HasKey, Arranged};
ghost use Rattle.page_spec.specs.Pieces as page;
ghost use Rattle.page_spec.specs.Pieces.{Item, Pieces};
ghost use Rattle.page_spec.specs.Page.{HasText, IsCyclicAt, IsOutcome};
ghost use Rattle.definition_examples.specs.Agreement.{op_of};

/// Whatever stands for a site.
pub trait AnySite {
    ghost site: { Self → Site };
}

/// In any site, each question that a page asks has at most one answer: the values of a word, the
/// key of a value, an expression's values in order, the pieces of a value and its text, the value
/// that a cycle is named by, and the outcome.
pub fn one_answer<S: AnySite>(site: &S)
    ensures values { (u : Value) (word : Word) (vs ws : List Value)
        → Values (S.site site.now) u word vs → Values (S.site site.now) u word ws → vs ≡ ws }
    ensures keys { (word : Option Word) (v : Value) (j k : Option Value)
        → HasKey (S.site site.now) word v j → HasKey (S.site site.now) word v k → j ≡ k }
    ensures arranged { (e : Env) (x : Expr) (o : Order) (vs ws : List Value)
        → Arranged (S.site site.now) e x o vs → Arranged (S.site site.now) e x o ws → vs ≡ ws }
    ensures pieces { (f : TemplateFile) (n : Value) (ps qs : List Item)
        → Pieces (S.site site.now) f n ps → Pieces (S.site site.now) f n qs → ps ≡ qs }
    ensures texts { (f : TemplateFile) (n : Value) (t u : List ℕ)
        → HasText (S.site site.now) f n t → HasText (S.site site.now) f n u → t ≡ u }
    ensures cycles { (f : TemplateFile) (n a b : Value)
        → IsCyclicAt (S.site site.now) f n a → IsCyclicAt (S.site site.now) f n b → a ≡ b }
    ensures outcomes { (f : TemplateFile) (t : Term) (o p : Outcome)
        → IsOutcome (S.site site.now) f t o → IsOutcome (S.site site.now) f t p → o ≡ p }
{}

/// A template's comparison says what a query's says under version 1.
pub fn comparisons_agree()
    ensures { (c : Cmp) (v w : Value) → page.HoldsBetween c v w ↔ query.Compares 1 (op_of c) v w }
{}
