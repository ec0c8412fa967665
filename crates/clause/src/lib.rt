// From a decision, which names nodes of the lent words by position, to the words of its own node, a PermitWithTrace or a DenyWithTrace:
// its clause and its facts, how many words it takes, and the words.
#![tactic(auto)]

ghost use Rattle.std.specs.Prelude.{◌≡◌, true, List, ℕ, ◌+◌, ◌*◌, ◌^◌, ◌≤◌, ◌<◌, min, length};
ghost use Rattle.model.specs.Facts.{table_of};
ghost use Rattle.model.specs.Writing.{most_listed};
ghost use Rattle.policy_model.specs.Heads.{denied_by};
ghost use Rattle.record.specs.Nodes.{denial_of};
ghost use Rattle.clause.specs.Room.{RoomToName};
ghost use Rattle.clause.specs.Clauses.{clause_by, decision_size};
ghost use Rattle.clause.specs.Clauses.{countable as countable_of};
ghost use Rattle.clause.specs.Answers.{FactsListed, ClauseFacts, ClauseIs, DecisionWritten};

use condition::Walk;
use decision::Decision;
use policy_model::{DenyShape, PolicyHead};
use record::Clause;

// Writes the list of `count` facts at `at` to the front of `out`, and returns how many there are: none where no node lists so many, or the words end.
#[tactic(auto, using(crate::proofs::Lists::list_cut))]
fn load_facts(words: &[u32], at: usize, count: usize, out: &mut [u16]) -> usize
    requires { min (2 * length words.now) most_listed ≤ length out.old }
    ensures { FactsListed words.now at count out.new result }
{
    if count > policy_model::MOST_LISTED {
        return 0;
    }
    if words.len().saturating_sub(at) < policy_model::entry_words(count as u32) {
        return 0;
    }
    for i in 0..count {
        out[i] = packing::unpack_entry(words, at, i);
    }
    count
}

// Writes the facts of the clause of the node that is named to the front of `out`, and returns how many there are: of a Grant those that decide its
// condition, of a stored decision those of its list. Other nodes have none.
#[tactic(auto, using(crate::proofs::Nodes::facts_past, decision::proofs::Nodes::reached_inside))]
pub fn clause_facts(walk: &Walk<'_>, node: Option<usize>, out: &mut [u16]) -> usize
    requires { RoomToName walk.now.words.now out.old }
    ensures { ClauseFacts walk.now.words.now (table_of walk.now.facts.now) node out.new result }
{
    let words = walk.words;
    let Some(at) = decision::node_in(words, node) else {
        return 0;
    };
    match policy_model::policy_head(words[at], true) {
        PolicyHead::Grant { .. } => {
            let start = at + grant::before_condition_in(words, at) as usize;
            let named = decisive::decisive_arm(walk, start, grant::CONDITION_LEVELS, out);
            named.count
        }
        PolicyHead::PermitWithTrace { obligations, .. } => {
            let start = at + 2 + policy_model::obligation_words(obligations);
            let count = policy_model::word_at(words, at + 1) % policy_model::HALF;
            load_facts(words, start, count as usize, out)
        }
        PolicyHead::DenyWithTrace { .. } => load_facts(
            words,
            at + 3,
            policy_model::word_at(words, at + 2) as usize,
            out,
        ),
        _ => 0,
    }
}

// A clause from a label and a reason of 16 bits each, the shape, and the denied outcome, if present.
fn clause_of(label: u32, reason: u32, shape: DenyShape, denied: Option<u16>) -> Clause
    ensures { (fs : List ℕ) → denial_of result fs ≡ clause_by label reason shape (denied_by denied) fs }
{
    Clause {
        label: record::mark(label),
        reason: record::mark(reason),
        shape,
        denied,
    }
}

// The clause of the node that is named: of a Grant, or of a stored decision, where a permit has no more than a label. Other nodes have none.
#[tactic(auto, using(crate::proofs::Nodes::clause_past, decision::proofs::Nodes::reached_inside))]
fn clause_at(words: &[u32], node: Option<usize>) -> Clause
    ensures { ClauseIs words.now node result }
{
    let Some(at) = decision::node_in(words, node) else {
        return clause_of(0, 0, DenyShape::Forbidden, None);
    };
    let marks = policy_model::word_at(words, at + 1);
    let label = marks / policy_model::HALF;
    let reason = marks % policy_model::HALF;
    match policy_model::policy_head(words[at], true) {
        PolicyHead::Grant { shape, outcome, .. } => clause_of(label, reason, shape, Some(outcome)),
        PolicyHead::PermitWithTrace { .. } => clause_of(label, 0, DenyShape::Forbidden, None),
        PolicyHead::DenyWithTrace { shape, denied } => clause_of(label, reason, shape, denied),
        _ => clause_of(0, 0, DenyShape::Forbidden, None),
    }
}

// Whether a decision's node can say so many obligations and so many facts. `permit` is the decision's own field, which says which of two nodes is meant:
// an enum would be made from it at each call.
pub fn countable(permit: bool, held: usize, count: usize) -> bool
    ensures { result ≡ countable_of permit held count }
{
    count <= policy_model::MOST_LISTED && (!permit || held <= decision::MOST_HELD)
}

// How many words a decision's node takes, with so many obligations and so many facts. A flag, as at `countable`.
pub fn decision_words(permit: bool, held: usize, count: usize) -> usize
    requires { (held < 2 ^ 32) × (count < 2 ^ 32) }
    ensures { result ≡ decision_size permit held count }
{
    if permit {
        2 + policy_model::obligation_words(held as u32) + policy_model::entry_words(count as u32)
    } else {
        3 + policy_model::entry_words(count as u32)
    }
}

// Writes a decision's node, with its obligations, as `decision::obligations` gathers them, and the facts of its clause, as `clause_facts` does.
pub fn write_decision(
    words: &[u32],
    decision: Decision,
    obligations: &[u8],
    named: &[u16],
    out: &mut [u32],
) -> usize
    requires { (countable_of decision.permit (length obligations.now) (length named.now) ≡ true) × (decision_size decision.permit (length obligations.now) (length named.now) ≤ length out.old) }
    ensures { DecisionWritten words.now decision obligations.now named.now out.old out.new result }
{
    let clause = clause_at(words, decision.clause);
    if decision.permit {
        record::write_permit_with_trace(decision.outcome, clause.label, obligations, named, out)
    } else {
        record::write_deny_with_trace(clause, named, out)
    }
}
