//! Each term of a query's site has an outcome, each target of a request, and each connection an answer.
#![tactic(auto)]

ghost use Rattle.std.specs.Prelude.{◌≡◌, ◌⊎◌, ℕ, Bool, List, Option};
ghost use Rattle.sd_value.specs.Names.{Name};
ghost use Rattle.sd_value.specs.declared.Term.{Term};
ghost use Rattle.sd_value.specs.declared.Value.{Value};
ghost use Rattle.graph_spec.specs.DataGraph.{DataGraph};
ghost use Rattle.site_spec.specs.Site.{Scope};
ghost use Rattle.tmpl.specs.Body.{TemplateFile};
ghost use Rattle.page_spec.specs.declared.Outcome.{Outcome};
ghost use Rattle.page_spec.specs.Pieces.{HasTemplate};
ghost use Rattle.page_spec.specs.Page.{HasText, Loops, IsOutcome, PageAt};
ghost use Rattle.weight_spec.specs.Site.{site_of};
ghost use Rattle.http_spec.specs.Streams.{Timed};
ghost use Rattle.http_spec.specs.Sessions.{AnswersStream};
ghost use Rattle.serving_spec.specs.Shown.{shown_in};
ghost use Rattle.serving_spec.specs.declared.Origin.{Origin};
ghost use Rattle.trial_spec.specs.Asked.{IsTrialText};

use http_spec::Standing;

/// What may change while a connection is served: the data, their query and its templates.
pub trait Changing {
    ghost Current: { Type 0 };

    ghost graph: { Current → DataGraph };

    ghost query: { Current → Scope };

    ghost templates: { Current → TemplateFile };
}

/// Each value that has a template has a text, or a cycle of embeds is reached from it.
pub fn each_value_ends_or_loops()
    ensures { (graph : DataGraph) (query : Scope) (file : TemplateFile) (v : Value) (k : ℕ)
        → HasTemplate (site_of graph query) file v k
        → ((text : List ℕ) × HasText (site_of graph query) file v text)
        ⊎ Loops (site_of graph query) file v }
{}

/// Each term has an outcome: its page, that there is none, the value that its cycle is named by, or
/// that its text is too long.
pub fn each_term_has_an_outcome()
    ensures { (graph : DataGraph) (query : Scope) (file : TemplateFile) (t : Term)
        → (o : Outcome) × IsOutcome (site_of graph query) file t o }
{}

/// Each target has an outcome: that of the term that it names, or that there is no page where it
/// names none.
pub fn each_target_has_an_outcome()
    ensures { (root : Option Name) (graph : DataGraph) (query : Scope) (file : TemplateFile)
        (target : List ℕ) → (o : Outcome) × PageAt root (site_of graph query) file target o }
{}

/// Each connection has an answer for which memory suffices, whatever its bytes are, whatever changes
/// between them, and whether they have ended or not.
pub fn each_connection_has_an_answer<C: Changing>()
    ensures { (origin : Origin) (limit : ℕ) (stream : List (Timed C.Current)) (ended : Bool)
        → (standing : Standing) × (replies : List (List ℕ)) × (standing ≡ Standing.Short → ⊥)
        × AnswersStream
        (shown_in origin (λ current. site_of (C.graph current) (C.query current)) C.templates)
        limit stream ended standing replies }
{}

/// Asking for the targets of a trial of any number of entries gives a text.
pub fn each_trial_has_a_text()
    ensures { (root : Option Name) (graph : DataGraph) (query : Scope) (file : TemplateFile)
        (entries : ℕ) → (text : List ℕ)
        × IsTrialText root (site_of graph query) file entries text }
{}
