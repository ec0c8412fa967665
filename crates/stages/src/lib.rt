// The staged guarantee of what the calls return, in specs/. The functions say that the runs it speaks of are the calls' own: one for each call, so twice for
// those that are there by an outcome table too.
#![tactic(auto)]

ghost use Rattle.std.proofs.Math.Option.{none, some};
ghost use Rattle.outcome.specs.Carried.{table};
ghost use Rattle.partial_policy.specs.Reducing.{order_of};
ghost use Rattle.stages.specs.Runs.{run_of, Evaluated, Reduced, Narrowed, Completed, asking_of, Asked};

use answer::Answer;
use partial_policy::Order;
use refusal::Refusal;

pub fn evaluated(sheet: &[u32], number: u32, facts: &[u8], out: &mut [u32]) -> Answer
    ensures { Evaluated none number sheet.now (run_of facts.now out.old out.new result) }
{
    calls::evaluate(sheet, number, facts, out)
}

pub fn reduced(sheet: &[u32], number: u32, order: Order, facts: &[u8], out: &mut [u32]) -> Answer
    ensures { Reduced none (order_of order) number sheet.now (run_of facts.now out.old out.new result) }
{
    calls::partial_evaluate(sheet, number, order, facts, out)
}

pub fn narrowed(given: &[u32], number: u32, order: Order, facts: &[u8], out: &mut [u32]) -> Answer
    ensures { Narrowed none (order_of order) number given.now (run_of facts.now out.old out.new result) }
{
    calls::narrow_residual(given, number, order, facts, out)
}

pub fn completed(given: &[u32], number: u32, facts: &[u8], out: &mut [u32]) -> Answer
    ensures { Completed none number given.now (run_of facts.now out.old out.new result) }
{
    calls::complete_residual(given, number, facts, out)
}

// The same by an outcome table.
pub fn evaluated_by_levels(
    levels: u32,
    outcomes: &[u8],
    sheet: &[u32],
    number: u32,
    facts: &[u8],
    out: &mut [u32],
) -> Answer
    ensures { Evaluated (some (table levels outcomes.now)) number sheet.now (run_of facts.now out.old out.new result) }
{
    calls::evaluate_by_levels(levels, outcomes, sheet, number, facts, out)
}

pub fn reduced_by_levels(
    levels: u32,
    outcomes: &[u8],
    sheet: &[u32],
    number: u32,
    order: Order,
    facts: &[u8],
    out: &mut [u32],
) -> Answer
    ensures { Reduced (some (table levels outcomes.now)) (order_of order) number sheet.now (run_of facts.now out.old out.new result) }
{
    calls::partial_evaluate_by_levels(levels, outcomes, sheet, number, order, facts, out)
}

pub fn narrowed_by_levels(
    levels: u32,
    outcomes: &[u8],
    given: &[u32],
    number: u32,
    order: Order,
    facts: &[u8],
    out: &mut [u32],
) -> Answer
    ensures { Narrowed (some (table levels outcomes.now)) (order_of order) number given.now (run_of facts.now out.old out.new result) }
{
    calls::narrow_residual_by_levels(levels, outcomes, given, number, order, facts, out)
}

pub fn completed_by_levels(
    levels: u32,
    outcomes: &[u8],
    given: &[u32],
    number: u32,
    facts: &[u8],
    out: &mut [u32],
) -> Answer
    ensures { Completed (some (table levels outcomes.now)) number given.now (run_of facts.now out.old out.new result) }
{
    calls::complete_residual_by_levels(levels, outcomes, given, number, facts, out)
}

pub fn asked(given: &[u32], set: &mut [u64]) -> Result<u32, Refusal>
    ensures { Asked given.now (asking_of set.old set.new result) }
{
    required::required_residual_facts(given, set)
}
