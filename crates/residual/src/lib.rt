// What a residual keeps, after gatekeep's partial.rs: the node of a resolved part, and a list of such nodes and pending arms.
// An output may be too short for the words, and then only their size is right.
#![tactic(auto)]

ghost use Rattle.std.specs.Prelude.{◌≡◌, true, [], ◌+◌, ◌≤◌, ◌<◌};
ghost use Rattle.model.specs.Facts.{fact_count, table_of};
ghost use Rattle.model.specs.Decision.{permits, combined};
ghost use Rattle.decision.specs.Meaning.{permitted_at};
ghost use Rattle.record.specs.Nodes.{decision_words};
ghost use Rattle.sizes.specs.Laid.{too_many, Laid};
ghost use Rattle.decision.specs.Room.{RoomToUnite, Few};
ghost use Rattle.clause.specs.Room.{RoomToName};
ghost use Rattle.residual.specs.Answers.{on_fact, NodeLaid, ListPut};

use condition::Walk;
use decision::Decision;

// Whether a decision is a permit that takes all but its outcome from one node, or from none.
fn from_one_node(decision: Decision) -> bool
    ensures { result ≡ true → decision ≡ permitted_at decision.outcome decision.clause decision.clause 0 }
{
    decision.permit && decision.united == 0 && decision.obligations == decision.clause
}

// Lays the node of a permit with nothing but its outcome.
#[tactic(auto, using(crate::proofs::Short::bare_laid))]
fn lay_bare(outcome: u16, out: &mut [u32]) -> usize
    ensures { Laid 2 (decision_words (permits (combined outcome []))) out.new result }
{
    if out.len() < 2 {
        return 2;
    }
    out[0] = policy_model::LEAD_PERMIT_WITH_TRACE + outcome as u32;
    out[1] = 0;
    2
}

// Lays the node of a permit with its outcome and one fact: in word two no label and a count of 1, and the fact in the upper half of word three.
#[tactic(auto, using(crate::proofs::Short::fact_laid))]
fn lay_on_fact(outcome: u16, fact: u32, out: &mut [u32]) -> usize
    requires { fact < fact_count }
    ensures { Laid 3 (decision_words (on_fact outcome fact)) out.new result }
{
    if out.len() < 3 {
        return 3;
    }
    out[0] = policy_model::LEAD_PERMIT_WITH_TRACE + outcome as u32;
    out[1] = 1;
    out[2] = fact * policy_model::HALF;
    3
}

// Lays the node of any decision, as `policy_from_decision` does. Its obligations and its facts are gathered as in `answer::put_record`: a function for both
// would hand back two buffers, two counts and a size. It keeps a frame of its own, since its room for obligations would stand in a list's frame for each level.
#[inline(never)]
fn lay_gathered(
    walk: &Walk<'_>,
    decision: Decision,
    buf: &mut [u8],
    named: &mut [u16],
    out: &mut [u32],
) -> usize
    requires { Few decision × RoomToUnite 1 buf.old × RoomToName walk.now.words.now named.old }
    ensures { NodeLaid walk.now.words.now (table_of walk.now.facts.now) decision buf.old buf.new out.new result }
{
    let words = walk.words;
    let mut obligations = [0u8; decision::LIST_ROOM];
    let held = decision::obligations(words, decision, buf, &mut obligations);
    let count = clause::clause_facts(walk, decision.clause, named);
    if !clause::countable(decision.permit, held, count) {
        return sizes::TOO_MANY;
    }
    let size = clause::decision_words(decision.permit, held, count);
    if out.len() < size {
        return size;
    }
    clause::write_decision(words, decision, &obligations[..held], &named[..count], out)
}

// Lays the node of a resolved part, a PermitWithTrace or a DenyWithTrace, at the front of `out`, and returns its size: too many words for a record
// where its obligations or its facts can't be counted. It is compiled into the lists, for the sake of the short nodes.
#[inline(always)]
pub fn policy_from_decision(
    walk: &Walk<'_>,
    decision: Decision,
    buf: &mut [u8],
    named: &mut [u16],
    out: &mut [u32],
) -> usize
    requires { Few decision × RoomToUnite 1 buf.old × RoomToName walk.now.words.now named.old }
    ensures { NodeLaid walk.now.words.now (table_of walk.now.facts.now) decision buf.old buf.new out.new result }
{
    let words = walk.words;
    // The commonest nodes, those of a Permit and of a grant on one fact, are short.
    if from_one_node(decision) {
        let Some(at) = decision::node_in(words, decision.clause) else {
            return lay_bare(decision.outcome, out);
        };
        if policy_model::plain_grant(words, at) {
            return lay_on_fact(decision.outcome, words[at + 2] % policy_model::FACTS, out);
        }
    }
    lay_gathered(walk, decision, buf, named, out)
}

// Makes a list of the first `kept` words of `front`, the nodes of its resolved parts, and of the pending arms in `out`, which are the words after the
// first among its first `size`. Returns the list's size.
#[tactic(auto, using(crate::proofs::Listing::list_put))]
pub fn put_list(lead: u32, front: &[u32], kept: usize, out: &mut [u32], size: usize) -> usize
    requires { (kept ≤ too_many) × (size ≤ too_many) × (1 ≤ size) }
    ensures { ListPut lead front.now kept size out.old out.new result }
{
    let total = sizes::plus(kept, size);
    if total > sizes::LIMIT || out.len() < total || front.len() < kept {
        return total;
    }
    out.copy_within(1..size, 1 + kept);
    out[1..=kept].copy_from_slice(&front[..kept]);
    out[0] = lead;
    total
}
