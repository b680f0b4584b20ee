// The goals of a search, in the order of the chain's plan.
ghost use Rattle.std.specs.Prelude.{◌≡◌, ◌<◌, length, Some, IfOk, slice_get};
ghost use Rattle.std.specs.List.{AllZip};
ghost use Rattle.plan_spec.specs.Plan.{AreStepsOver};
ghost use Rattle.planned_goals.specs.Followed.{AreReady, IsStepOver, IsGoalFor};

use condition_tests::{Goal, goal_of};
use plan_spec::PlanStep;
use query_spec::Variable;
use sd_value::NoMemory;
use std::alloc::Global;
use struql_ast::Condition;

fn condition_at(conditions: &[Condition], i: usize) -> &Condition
    requires { i < length conditions.now }
    ensures { slice_get conditions.now i ≡ Some result.now }
{
    &conditions[i]
}

fn goal_of_step(
    alloc: Global,
    variables: &[Variable],
    conditions: &[Condition],
    step: &PlanStep,
) -> Result<Goal, NoMemory>
    requires ready { AreReady variables.now conditions.now }
    requires in_range { IsStepOver (length conditions.now) (length variables.now) step.now }
    ensures { IfOk result (IsGoalFor variables.now conditions.now step.now) }
{
    match step {
        PlanStep::Use { condition, .. } => {
            let condition = condition_at(conditions, *condition as usize);
            let goal = goal_of(alloc, variables, condition)?;
            Ok(goal)
        }
        PlanStep::Domain { variable, .. } => Ok(Goal::Domain(*variable as usize)),
    }
}

// A goal for each step.
pub(crate) fn goals_along(
    alloc: Global,
    variables: &[Variable],
    conditions: &[Condition],
    steps: &[PlanStep],
) -> Result<Vec<Goal>, NoMemory>
    requires ready { AreReady variables.now conditions.now }
    requires in_range { AreStepsOver (length conditions.now) (length variables.now) steps.now }
    ensures { IfOk result
        (λ goals. AllZip (IsGoalFor variables.now conditions.now) steps.now goals.items) }
{
    let mut goals = Vec::new(alloc);
    for step in steps {
        let goal = goal_of_step(alloc, variables, conditions, step)?;
        goals.push(goal)?;
    }
    Ok(goals)
}
