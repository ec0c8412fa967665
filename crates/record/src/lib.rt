// Writers of decisions and of a record's front. Each part is written into what the last one left of the output, and the counts are added.
#![tactic(auto)]

ghost use Rattle.std.specs.Prelude.{◌≡◌, ◌∷◌, [], ◌+◌, ◌^◌, ◌≤◌, ◌<◌, length};
ghost use Rattle.model.specs.Fields.{above, words_for};
ghost use Rattle.model.specs.Outcome.{outcome_bits};
ghost use Rattle.model.specs.Decision.{denies};
ghost use Rattle.model.specs.Writing.{rest_bits, count_bits, mark_bits, word, marked, shape_bit};
ghost use Rattle.model.specs.Reading.{shape_of};
ghost use Rattle.model.specs.Products.{denied_field};
ghost use Rattle.policy_model.specs.Heads.{bit_of, denied_by};
ghost use Rattle.packing.specs.Written.{Written};
ghost use Rattle.record.specs.Nodes.{mark_of, mark_in, permit_of, denial_of, decision_words, permit_front, deny_front, lead_of, front_words};

use policy_model::{DenyShape, Status};

// What a node gives a decision but for facts: label, reason, shape and the outcome that was denied.
#[derive(Drop)]
pub struct Clause {
    pub label: Option<u16>,
    pub reason: Option<u16>,
    pub shape: DenyShape,
    pub denied: Option<u16>,
}

// A label or a reason, as 16 bits say it: present (1), then fifteen bits.
pub fn mark(half: u32) -> Option<u16>
    ensures { mark_of result ≡ mark_in half }
{
    (half >= policy_model::MARKED).then_some((half % policy_model::MARKED) as u16)
}

// A label or a reason of fifteen bits as 16 bits.
fn mark_field(given: Option<u16>) -> u32
    ensures { (result ≡ marked (mark_of given)) × (result < 2 ^ (1 + mark_bits)) }
{
    match given {
        Some(number) => policy_model::MARKED + number as u32 % policy_model::MARKED,
        None => 0,
    }
}

// The outcome that a grant denied: present (1), zero (10), outcome (16).
fn denied_field(denied: Option<u16>) -> u32
    ensures { (result ≡ denied_field (denied_by denied)) × (result < 2 ^ (1 + 10 + outcome_bits)) }
{
    match denied {
        Some(outcome) => policy_model::DENIED + outcome as u32,
        None => 0,
    }
}

// The shape, with the bits that stand below it.
fn shape_above(shape: DenyShape, below: u32) -> u32
    requires { below < 2 ^ (1 + 10 + outcome_bits) }
    ensures { (result ≡ above (1 + 10 + outcome_bits) (shape_bit (shape_of (bit_of shape))) + below) × (result < 2 ^ rest_bits) }
{
    match shape {
        DenyShape::Forbidden => below,
        DenyShape::Hidden => policy_model::HIDDEN + below,
    }
}

// The first two words of a PermitWithTrace.
fn write_permit_front(
    outcome: u16,
    obligation_count: usize,
    label: Option<u16>,
    count: usize,
    out: &mut [u32],
) -> usize
    requires { (obligation_count < 2 ^ 7) × (count < 2 ^ (4 + count_bits)) × (2 ≤ length out.old) }
    ensures { (result ≡ 2) × Written (permit_front outcome obligation_count label count) out.old out.new result }
{
    out[0] = policy_model::LEAD_PERMIT_WITH_TRACE
        + obligation_count as u32 * policy_model::OBLIGATIONS
        + outcome as u32;
    out[1] = mark_field(label) * policy_model::HALF + count as u32;
    2
}

// PermitWithTrace, with its obligations and its facts.
pub fn write_permit_with_trace(
    outcome: u16,
    label: Option<u16>,
    obligations: &[u8],
    facts: &[u16],
    out: &mut [u32],
) -> usize
    requires { (length obligations.now < 2 ^ 7) × (length facts.now < 2 ^ (4 + count_bits)) × (2 + words_for 4 (length obligations.now) + words_for 2 (length facts.now) ≤ length out.old) }
    ensures { (result ≡ 2 + words_for 4 (length obligations.now) + words_for 2 (length facts.now)) × Written (decision_words (permit_of outcome label obligations.now facts.now)) out.old out.new result }
{
    let behind = write_permit_front(outcome, obligations.len(), label, facts.len(), out);
    let next = behind + packing::pack_obligations(obligations, &mut out[behind..]);
    next + packing::pack_entries(facts, &mut out[next..])
}

// The first three words of a DenyWithTrace.
fn write_deny_front(clause: Clause, count: usize, out: &mut [u32]) -> usize
    requires { (count < 2 ^ (4 + count_bits)) × (3 ≤ length out.old) }
    ensures { (result ≡ 3) × Written (deny_front clause count) out.old out.new result }
{
    out[0] = policy_model::LEAD_DENY_WITH_TRACE
        + shape_above(clause.shape, denied_field(clause.denied));
    out[1] = mark_field(clause.label) * policy_model::HALF + mark_field(clause.reason);
    out[2] = count as u32;
    3
}

// DenyWithTrace, with its facts.
pub fn write_deny_with_trace(clause: Clause, facts: &[u16], out: &mut [u32]) -> usize
    requires { (length facts.now < 2 ^ (4 + count_bits)) × (3 + words_for 2 (length facts.now) ≤ length out.old) }
    ensures { (result ≡ 3 + words_for 2 (length facts.now)) × Written (decision_words (denies (denial_of clause facts.now))) out.old out.new result }
{
    let behind = write_deny_front(clause, facts.len(), out);
    behind + packing::pack_entries(facts, &mut out[behind..])
}

// A record's lead, with `count` consulted entries to come.
fn write_lead(status: Status, count: usize, out: &mut [u32]) -> usize
    requires { (count < 2 ^ rest_bits) × (1 ≤ length out.old) }
    ensures { (result ≡ 1) × Written (word (lead_of status) count ∷ []) out.old out.new result }
{
    let lead = match status {
        Status::Resolved => policy_model::LEAD_RESOLVED,
        Status::Pending => policy_model::LEAD_PENDING,
    };
    out[0] = lead + count as u32;
    1
}

// A record's front: its lead, and the consulted entries.
pub fn write_front(status: Status, entries: &[u16], out: &mut [u32]) -> usize
    requires { (length entries.now < 2 ^ rest_bits) × (1 + words_for 2 (length entries.now) ≤ length out.old) }
    ensures { (result ≡ 1 + words_for 2 (length entries.now)) × Written (front_words status entries.now) out.old out.new result }
{
    let behind = write_lead(status, entries.len(), out);
    behind + packing::pack_entries(entries, &mut out[behind..])
}
