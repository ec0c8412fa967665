// What a call answers: a record of words that was written, or a refusal that leaves the output as it was.
#![tactic(auto)]

ghost use Rattle.std.specs.Prelude.{◌^◌, ◌≤◌, ◌<◌, length};
ghost use Rattle.model.specs.Facts.{fact_count, table_of};
ghost use Rattle.decision.specs.Room.{RoomToUnite, Few};
ghost use Rattle.clause.specs.Room.{RoomToName};
ghost use Rattle.model.specs.Writing.{sheet_bits};
ghost use Rattle.answer.specs.Answers.{Answered, Put, Numbered, copied};

use condition::Walk;
use decision::Decision;
use policy_model::{COUNTS, KIND, Status};
use refusal::Refusal;

// How many words were written, or why none were.
pub type Answer = Result<usize, Refusal>;

// Writes the Resolved record of a decision and the consulted entries, if there is room for it. Its length is known before a word changes.
#[tactic(auto, using(crate::proofs::Putting::size_small, clause::proofs::AnswerLaws::few_facts, clause::proofs::AnswerLaws::held_taken, clause::proofs::AnswerLaws::named_taken, crate::proofs::Putting::put_long))]
pub fn put_record(
    walk: &Walk<'_>,
    decision: Decision,
    entries: &[u16],
    buf: &[u8],
    named: &mut [u16],
    out: &mut [u32],
) -> Answer
    requires { Few decision × RoomToUnite 1 buf.now × (length entries.now ≤ fact_count) × RoomToName walk.now.words.now named.old }
    ensures { Put walk.now.words.now (table_of walk.now.facts.now) buf.now decision entries.now out.old out.new result }
{
    let mut obligations = [0u8; decision::LIST_ROOM];
    let obligation_count = decision::obligations(walk.words, decision, buf, &mut obligations);
    let count = clause::clause_facts(walk, decision.clause, named);
    if !clause::countable(decision.permit, obligation_count, count) {
        return Err(Refusal::Room);
    }
    let size = clause::decision_words(decision.permit, obligation_count, count);
    if out.len() < 1 + policy_model::entry_words(entries.len() as u32) + size {
        return Err(Refusal::Room);
    }
    let behind = record::write_front(Status::Resolved, entries, out);
    let rest = clause::write_decision(
        walk.words,
        decision,
        &obligations[..obligation_count],
        &named[..count],
        &mut out[behind..],
    );
    Ok(behind + rest)
}

// Writes a record as it stands, if there is room for it.
pub fn copy_record(words: &[u32], out: &mut [u32]) -> Answer
    ensures { Answered (copied words.now (length out.old)) out.old out.new result }
{
    if out.len() < words.len() {
        return Err(Refusal::Room);
    }
    out[..words.len()].copy_from_slice(words);
    Ok(words.len())
}

// Puts a sheet's number into the lead of the record that was written, if one was.
pub fn under_number(answer: Answer, number: u32, out: &mut [u32]) -> Answer
    requires { number < 2 ^ sheet_bits }
    ensures { Numbered number out.old out.new answer result }
{
    let words = answer?;
    // no call writes a record of no words
    if words != 0 {
        if let Some(lead) = out.first_mut() {
            *lead = *lead / KIND * KIND + (number * COUNTS + *lead % COUNTS);
        }
    }
    Ok(words)
}
