// Candidates, and the graphs that are made of them.
ghost use Rattle.std.specs.Prelude.{◌≡◌, IfOk, MatchOption, map};
ghost use Rattle.struql_ast.specs.Reading.{operand_of, target_of};
ghost use Rattle.counterexample_spec.specs.Candidates.{arguments_of};
ghost use Rattle.counterexample_spec.specs.Values.{second_copy};
ghost use Rattle.counterexample_spec.specs.Frozen.{stated};
ghost use Rattle.sd_graph.specs.ProgramLimits.{IsWithinProgram};
ghost use Rattle.refute_site.specs.Adding.{AddsAll, IsBuiltWithin};
ghost use Rattle.refute_site.specs.Patterns.{copy_of};
ghost use Rattle.refute_site.specs.Candidates.{candidate_graph, HasItsVariables, in_copy, stated_beside};

use crate::freezing::{ChainCopy, LabelSet, Pattern, freeze};
use sd_graph::{GraphBuilder, GraphRefusal, PROGRAM_LIMITS};
use sd_value::NoMemory;
use std::alloc::Global;
use struql_ast::{Chain, Operand, Target};

/// A graph that may be a counterexample, as what is to be frozen in it.
#[derive(Clone, Copy)]
pub(crate) struct Candidate<'a> {
    pub chain: &'a Chain,
    /// The label that a variable is set to, if it is.
    pub set: Option<LabelSet<'a>>,
    /// Where there is a second copy of the chain: the source of a link, whose variables both share.
    pub source: Option<&'a Target>,
    /// Whether what may be repeated in a path is taken once, or else left out.
    pub repeats: bool,
}

fn arguments(target: &Target) -> &[Operand]
    ensures { map operand_of result.now ≡ arguments_of (target_of target.now) }
{
    match target {
        Target::Plain(_) | Target::Summed(_, _) => &[],
        Target::Made(term) => term.args.as_slice(),
    }
}

impl Candidate<'_> {
    // Adds the copy of the chain.
    fn add(
        &self,
        alloc: Global,
        copy: ChainCopy,
        builder: &mut GraphBuilder,
    ) -> Result<(), GraphRefusal>
        requires { HasItsVariables self.now }
        ensures { AddsAll (stated (in_copy self.now (copy_of copy.entry)))
            builder.old builder.new result }
    {
        let pattern = Pattern {
            chain: self.chain,
            set: self.set,
            copy,
            repeats: self.repeats,
        };
        freeze(alloc, builder, &pattern)
    }

    // Adds the second copy, which shares the variables of the source.
    fn add_second(
        &self,
        alloc: Global,
        source: &Target,
        builder: &mut GraphBuilder,
    ) -> Result<(), GraphRefusal>
        requires { HasItsVariables self.now }
        ensures { AddsAll
            (stated (in_copy self.now (second_copy (arguments_of (target_of source.now)))))
            builder.old builder.new result }
    {
        self.add(alloc, ChainCopy::Second(arguments(source)), builder)
    }

    // Adds the second copy, if there is one.
    fn add_beside(&self, alloc: Global, builder: &mut GraphBuilder) -> Result<(), GraphRefusal>
        requires { HasItsVariables self.now }
        ensures { AddsAll (stated_beside self.now self.now.source)
            builder.old builder.new result }
    {
        match self.source {
            None => Ok(()),
            Some(source) => self.add_second(alloc, source, builder),
        }
    }

    // The candidate's graph, if it is within the program's limits.
    fn built(&self, alloc: Global) -> Result<GraphBuilder, GraphRefusal>
        requires { HasItsVariables self.now }
        ensures { IsBuiltWithin (candidate_graph self.now) result }
    {
        let mut builder = GraphBuilder::new(alloc, PROGRAM_LIMITS);
        self.add(alloc, ChainCopy::First, &mut builder)?;
        self.add_beside(alloc, &mut builder)?;
        // (this call reports that the graph is within them)
        let _limits = builder.limits();
        Ok(builder)
    }

    /// The candidate's graph, if it is within the program's limits.
    /// # Errors
    /// Out of memory.
    pub(crate) fn graph(&self, alloc: Global) -> Result<Option<GraphBuilder>, NoMemory>
        requires { HasItsVariables self.now }
        ensures { IfOk result (λ found.
            MatchOption found (¬ IsWithinProgram (candidate_graph self.now)) (λ builder.
            (builder.graph ≡ candidate_graph self.now)
            × IsWithinProgram (candidate_graph self.now))) }
    {
        match self.built(alloc) {
            Ok(builder) => Ok(Some(builder)),
            Err(GraphRefusal::TooManyNodes | GraphRefusal::TooManyEdges) => Ok(None),
            Err(GraphRefusal::NoMemory) => Err(NoMemory),
        }
    }
}
