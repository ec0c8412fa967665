// The calls that write a record, after gatekeep's evaluate and partial: words and bytes in, a record of words out, or a refusal that leaves the output as it
// was. Each call is a function for sets of products and one by an outcome table, since that one judges its table first. A reduction takes the order of what it
// leaves. A table's levels and bytes are two parameters, as the C interface has them. An `Evaluation` is made by a literal where it is lent: a function would
// hand back what it is given.
#![tactic(auto)]

ghost use Rattle.std.specs.Prelude.{◌≡◌, ◌≤◌, cond, length};
ghost use Rattle.std.proofs.Math.Option.{Option, none, some};
ghost use Rattle.refusal.specs.Numbers.{refused};
ghost use Rattle.outcome.specs.Carried.{table, carried};
ghost use Rattle.model.specs.Facts.{table_of};
ghost use Rattle.model.specs.Levels.{outcome_count};
ghost use Rattle.model.specs.Levels as model;
ghost use Rattle.model.specs.Reading.{record_words, sheet_length};
ghost use Rattle.model.specs.Calls.{has_number, is_sheet_number};
ghost use Rattle.model.specs.Products.{evaluate_by, partial_evaluate_by, narrow_residual_by, complete_residual_by};
ghost use Rattle.model.specs.Products.{evaluate as calls_evaluate, partial_evaluate, narrow_residual, complete_residual};
ghost use Rattle.facts.specs.Answers.{kind_of};
ghost use Rattle.policy_model.specs.Answers.{refusal, lead_of, record_lead};
ghost use Rattle.answer.specs.Answers.{Answered, Makes};
ghost use Rattle.completion.specs.Answers.{completed_after};
ghost use Rattle.partial_policy.specs.Reducing.{order_of};
ghost use Rattle.calls.specs.Judged.{read_sheet_by, read_record_by, of_number, judged_sheet, judged_record};

use answer::Answer;
use condition::Walk;
use evaluate::Evaluation;
use facts::TableKind;
use outcome::OutcomeTable;
use partial_policy::{Order, Reduction};
use policy_model::{RecordHead, Status};
use refusal::Refusal;

// Checks a sheet: its words, with `most` outcomes, and its number, which a record has to be able to carry.
fn check_sheet(sheet: &[u32], number: u32, most: u32) -> Result<(), Refusal>
    ensures { (g : Option model.OutcomeTable) → most ≡ outcome_count g → refused result ≡ refusal (of_number (is_sheet_number number) (read_sheet_by g sheet.now)) }
{
    policy_model::check_sheet(sheet, most)?;
    if number < policy_model::SHEET_NUMBERS {
        Ok(())
    } else {
        Err(Refusal::SheetNumber)
    }
}

// Checks a record: its words, and its number, which is the one expected.
fn check_record(words: &[u32], number: u32, most: u32) -> Result<RecordHead, Refusal>
    ensures { (g : Option model.OutcomeTable) → most ≡ outcome_count g → record_lead result ≡ lead_of (of_number (has_number words.now number) (read_record_by g words.now)) }
{
    let head = policy_model::check_record(words, most)?;
    if policy_model::sheet_number(words) == number {
        Ok(head)
    } else {
        Err(Refusal::SheetNumber)
    }
}

// Judges a sheet's length: the first cause for which a sheet is turned back.
pub fn judge_length(sheet: &[u32]) -> Result<(), Refusal>
    ensures { refused result ≡ cond (sheet_length sheet.now) none (some 1) }
{
    if sheet.len() == 0 || sheet.len() > policy_model::SHEET_WORDS {
        return Err(Refusal::Length);
    }
    Ok(())
}

// Judges a sheet and its table: the length, the table, the words, the number. `policy_model` judges the length too, but after the table.
pub fn judge_sheet(
    sheet: &[u32],
    number: u32,
    facts: &[u8],
    kind: TableKind,
    most: u32,
) -> Result<(), Refusal>
    ensures { (g : Option model.OutcomeTable) → most ≡ outcome_count g → refused result ≡ refusal (judged_sheet g (kind_of kind) number sheet.now facts.now) }
{
    judge_length(sheet)?;
    facts::check_table(facts, kind)?;
    check_sheet(sheet, number, most)
}

// Judges a record and its table, and says what the record is. Beside `judge_sheet`: another range of lengths, another check and another answer.
#[tactic(auto, unfolding(policy_model::specs::Answers::lead_of))]
fn judge_record(
    words: &[u32],
    number: u32,
    facts: &[u8],
    kind: TableKind,
    most: u32,
) -> Result<RecordHead, Refusal>
    ensures { (g : Option model.OutcomeTable) → most ≡ outcome_count g → record_lead result ≡ lead_of (judged_record g (kind_of kind) number words.now facts.now) }
{
    if words.len() == 0 || words.len() > policy_model::RECORD_WORDS {
        return Err(Refusal::Length);
    }
    facts::check_table(facts, kind)?;
    check_record(words, number, most)
}

// Decides a sheet that was judged: a tree at 0 with nothing consulted before it.
pub fn decide(
    sheet: &[u32],
    facts: &[u8],
    outcomes: Option<OutcomeTable<'_>>,
    out: &mut [u32],
) -> Answer
    requires { length sheet.now ≤ record_words }
    ensures { Makes (completed_after (carried outcomes.entry) (table_of facts.now)) sheet.now 0 0 out.old out.new result }
{
    let evaluation = Evaluation {
        walk: Walk {
            words: sheet,
            facts,
        },
        outcomes,
    };
    completion::complete(&evaluation, 0, 0, out)
}

// Judges a sheet with a known table, and decides it, by the outcomes of a table or by sets of products.
fn evaluate_by(
    outcomes: Option<OutcomeTable<'_>>,
    sheet: &[u32],
    number: u32,
    facts: &[u8],
    out: &mut [u32],
) -> Answer
    ensures { Answered (evaluate_by (carried outcomes.entry) number sheet.now facts.now (length out.old)) out.old out.new result }
{
    let most = outcome::most(outcomes);
    judge_sheet(sheet, number, facts, TableKind::Known, most)?;
    let decided = decide(sheet, facts, outcomes, out);
    answer::under_number(decided, number, out)
}

// Decides a sheet with a known table. The record carries the sheet's number.
pub fn evaluate(sheet: &[u32], number: u32, facts: &[u8], out: &mut [u32]) -> Answer
    ensures { Answered (evaluate_by none number sheet.now facts.now (length out.old)) out.old out.new result }
{
    evaluate_by(None, sheet, number, facts, out)
}

// The same by an outcome table.
pub fn evaluate_by_levels(
    levels: u32,
    outcomes: &[u8],
    sheet: &[u32],
    number: u32,
    facts: &[u8],
    out: &mut [u32],
) -> Answer
    ensures { Answered (calls_evaluate (some (table levels outcomes.now)) number sheet.now facts.now (length out.old)) out.old out.new result }
{
    let table = outcome_table::accepted(levels, outcomes)?;
    evaluate_by(Some(table), sheet, number, facts, out)
}

// Judges a sheet with a table that may leave facts open, and reduces it: with permits first in a list that is left, or in sheet order.
fn partial_evaluate_by(
    outcomes: Option<OutcomeTable<'_>>,
    sheet: &[u32],
    number: u32,
    order: Order,
    facts: &[u8],
    out: &mut [u32],
) -> Answer
    ensures { Answered (partial_evaluate_by (carried outcomes.entry) (order_of order) number sheet.now facts.now (length out.old)) out.old out.new result }
{
    let most = outcome::most(outcomes);
    judge_sheet(sheet, number, facts, TableKind::Partial, most)?;
    let evaluation = Evaluation {
        walk: Walk {
            words: sheet,
            facts,
        },
        outcomes,
    };
    let reduction = Reduction { evaluation, order };
    let reduced = partial::reduce(&reduction, 0, 0, out);
    answer::under_number(reduced, number, out)
}

// Reduces a sheet, with permits first or in sheet order.
pub fn partial_evaluate(
    sheet: &[u32],
    number: u32,
    order: Order,
    facts: &[u8],
    out: &mut [u32],
) -> Answer
    ensures { Answered (partial_evaluate_by none (order_of order) number sheet.now facts.now (length out.old)) out.old out.new result }
{
    partial_evaluate_by(None, sheet, number, order, facts, out)
}

// The same by an outcome table.
pub fn partial_evaluate_by_levels(
    levels: u32,
    outcomes: &[u8],
    sheet: &[u32],
    number: u32,
    order: Order,
    facts: &[u8],
    out: &mut [u32],
) -> Answer
    ensures { Answered (partial_evaluate (some (table levels outcomes.now)) (order_of order) number sheet.now facts.now (length out.old)) out.old out.new result }
{
    let table = outcome_table::accepted(levels, outcomes)?;
    partial_evaluate_by(Some(table), sheet, number, order, facts, out)
}

// Judges a record with a table of further facts, which may not contradict it, and narrows it. A Resolved one comes back as it stands.
fn narrow_residual_by(
    outcomes: Option<OutcomeTable<'_>>,
    words: &[u32],
    number: u32,
    order: Order,
    facts: &[u8],
    out: &mut [u32],
) -> Answer
    ensures { Answered (narrow_residual_by (carried outcomes.entry) (order_of order) number words.now facts.now (length out.old)) out.old out.new result }
{
    let most = outcome::most(outcomes);
    let head = judge_record(words, number, facts, TableKind::Partial, most)?;
    let consulted = head.consulted as usize;
    if contradiction::contradicted(words, consulted, facts) {
        return Err(Refusal::Contradiction);
    }
    match head.status {
        Status::Resolved => answer::copy_record(words, out),
        Status::Pending => {
            let evaluation = Evaluation {
                walk: Walk { words, facts },
                outcomes,
            };
            let reduction = Reduction { evaluation, order };
            let narrowed = partial::reduce(&reduction, consulted, head.tree, out);
            answer::under_number(narrowed, number, out)
        }
    }
}

// Narrows a record, with permits first or in sheet order.
pub fn narrow_residual(
    words: &[u32],
    number: u32,
    order: Order,
    facts: &[u8],
    out: &mut [u32],
) -> Answer
    ensures { Answered (narrow_residual_by none (order_of order) number words.now facts.now (length out.old)) out.old out.new result }
{
    narrow_residual_by(None, words, number, order, facts, out)
}

// The same by an outcome table.
pub fn narrow_residual_by_levels(
    levels: u32,
    outcomes: &[u8],
    words: &[u32],
    number: u32,
    order: Order,
    facts: &[u8],
    out: &mut [u32],
) -> Answer
    ensures { Answered (narrow_residual (some (table levels outcomes.now)) (order_of order) number words.now facts.now (length out.old)) out.old out.new result }
{
    let table = outcome_table::accepted(levels, outcomes)?;
    narrow_residual_by(Some(table), words, number, order, facts, out)
}

// Judges a record with a known table, and completes it. A Resolved one comes back as it stands.
fn complete_residual_by(
    outcomes: Option<OutcomeTable<'_>>,
    words: &[u32],
    number: u32,
    facts: &[u8],
    out: &mut [u32],
) -> Answer
    ensures { Answered (complete_residual_by (carried outcomes.entry) number words.now facts.now (length out.old)) out.old out.new result }
{
    let most = outcome::most(outcomes);
    let head = judge_record(words, number, facts, TableKind::Known, most)?;
    match head.status {
        Status::Resolved => answer::copy_record(words, out),
        Status::Pending => {
            let consulted = head.consulted as usize;
            let evaluation = Evaluation {
                walk: Walk { words, facts },
                outcomes,
            };
            let completed = completion::complete(&evaluation, consulted, head.tree, out);
            answer::under_number(completed, number, out)
        }
    }
}

// Completes a record with a known table.
pub fn complete_residual(words: &[u32], number: u32, facts: &[u8], out: &mut [u32]) -> Answer
    ensures { Answered (complete_residual_by none number words.now facts.now (length out.old)) out.old out.new result }
{
    complete_residual_by(None, words, number, facts, out)
}

// The same by an outcome table.
pub fn complete_residual_by_levels(
    levels: u32,
    outcomes: &[u8],
    words: &[u32],
    number: u32,
    facts: &[u8],
    out: &mut [u32],
) -> Answer
    ensures { Answered (complete_residual (some (table levels outcomes.now)) number words.now facts.now (length out.old)) out.old out.new result }
{
    let table = outcome_table::accepted(levels, outcomes)?;
    complete_residual_by(Some(table), words, number, facts, out)
}
