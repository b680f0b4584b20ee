//! What the check of a query gives of what constraints ask.

ghost use Rattle.struql_ast.specs.declared.Query.{Query as AnyQuery};
ghost use Rattle.struql_ast.specs.Reading.{query_of};
ghost use Rattle.struql_ast.specs.Written.{query_written};
ghost use Rattle.struql_check.specs.Faults.{IsFaultless};
ghost use Rattle.struql_check.specs.Parsed.{IsParsed};
ghost use Rattle.graph_spec.specs.DataGraph.{DataGraph};
ghost use Rattle.site_spec.specs.Site.{scope_of};
ghost use Rattle.constraint_spec.specs.declared.Constraint.{Constraint};
ghost use Rattle.constraint_spec.specs.Meets.{Meets};
ghost use Rattle.constraint_spec.specs.Certificate.{Certificate, IsCertificate};
ghost use Rattle.constraint_spec.specs.Checked.{IsChecked};

/// In a query without faults each variable of a link is mentioned by a condition of its chain, and a
/// label's variable is between arrows there.
pub fn a_query_without_faults_is_checked()
    ensures { (q : AnyQuery) → IsFaultless (query_written q) → IsParsed (query_of q)
        → IsChecked (scope_of (query_of q)) }
{}

/// What a certificate shows of a query without faults, its site over every data graph meets.
pub fn certificates_of_checked_queries_hold()
    ensures { (q : AnyQuery) → IsFaultless (query_written q) → IsParsed (query_of q)
        → (c : Constraint) (x : Certificate) → IsCertificate (scope_of (query_of q)) c x
        → (G : DataGraph) → Meets G (scope_of (query_of q)) c }
{}
