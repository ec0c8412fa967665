// What a list of policies keeps of its arms while it is reduced, and what it comes to, after gatekeep's partial.rs: with its permits first, or in sheet order
// (request 8). Lent: `buf`, for united obligations, `named`, for the facts of one clause, `out`, where pending arms are laid, and `front`, where a list with
// its permits first keeps their nodes until it knows that an arm is pending. A slice may be too short for what is laid in it: then only its size is right.
// Each is a parameter of its own: a list rule lends its arms other tails of `buf`, `front` and `out`, so a struct of them would be taken apart and made anew
// for each arm. Walk and outcome table come apart, since an `Evaluation` bounds its words, and the public functions here don't ask that. Of one resolved arm
// more, and of the end, each order has a function of its own: where a node is laid, which arms have one, and what stands before the pending ones at the end
// all differ.
#![tactic(auto)]

ghost use Rattle.std.specs.Prelude.{◌≡◌, IfSome, List, ℕ, ◌^◌, ◌≤◌, ◌<◌, drop};
ghost use Rattle.model.specs.Facts.{Table, table_of};
ghost use Rattle.outcome.specs.Carried.{carried};
ghost use Rattle.model.specs.Writing.{count_bits, word};
ghost use Rattle.sizes.specs.Laid.{too_many};
ghost use Rattle.decision.specs.Room.{obligation_room, RoomToUnite, Few};
ghost use Rattle.evaluate.specs.Evaluating.{Folds};
ghost use Rattle.clause.specs.Room.{RoomToName};
ghost use Rattle.partial_list.specs.declared.ListKind.TheVariants.{Any};
ghost use Rattle.partial_list.specs.Keeping.{list_kind, fold_next};
ghost use Rattle.partial_list.specs.Answers.{none_yet, with_pending, Bounded, NodeBehind, NodeKept, DecisionAdded, NodesEnd, ListEnds};
ghost use Rattle.partial_list.specs.InOrder.{DecisionHeld, OrderEnds, DenyEnds};

use condition::Walk;
use decision::{Decision, OBLIGATION_ROOM};
use outcome::OutcomeTable;

// Which list: an All meets the decisions of its arms and stops at a deny, an Any joins them and reads every arm.
#[derive(Clone, Copy)]
pub enum ListKind {
    All,
    Any,
}

// What a policy came to: its decision, or the size of what is left of it. After gatekeep's `ReducedPolicy`, beside its `ReducedCondition`, whose cases have
// other names.
#[derive(Clone, Copy)]
pub enum Reduced {
    Resolved(Decision),
    Pending(usize),
}

// That, and the position after the policy's words.
#[derive(Clone, Copy)]
pub struct ReducedPolicy {
    pub to: Reduced,
    pub next: usize,
}

// What the arms of a list came to so far. That its sizes are counted up to too many (`Bounded`) is asked by each function and is no ghost field: each
// definition that makes a `Sofar` would carry the proof.
#[derive(Clone, Copy)]
pub struct Sofar {
    // of the resolved arms, if there was one
    pub decision: Option<Decision>,
    // the size of the nodes that are kept, in `front`; in sheet order none is
    pub kept: usize,
    // the size of the pending arms, in sheet order of all arms, in `out` behind one free word, and of that word
    pub size: usize,
    // how many nodes and pending arms there are, and whether there is a pending one, which in sheet order `size` doesn't tell
    pub arms: u32,
    pub pending: bool,
}

// What a list has before its first arm: the free word.
pub fn none_yet() -> Sofar
    ensures { result ≡ none_yet }
{
    Sofar {
        decision: None,
        kept: 0,
        size: 1,
        arms: 0,
        pending: false,
    }
}

// Lays the node of a resolved arm behind the words that are kept, and returns the size of all. The arm's buffer starts at the second room. It is compiled into
// the list rules, as `policy_from_decision` is into it: with a call, the decision is laid in memory, and an All of 4,095 Permits is reduced in 95 µs in place
// of 62.
#[inline(always)]
fn lay_node(
    walk: &Walk<'_>,
    incoming: Decision,
    kept: usize,
    buf: &mut [u8],
    named: &mut [u16],
    out: &mut [u32],
) -> usize
    requires { Few incoming × (kept ≤ too_many) × RoomToUnite 2 buf.old × RoomToName walk.now.words.now named.old }
    ensures { NodeBehind (table_of walk.now.facts.now) walk.now.words.now incoming kept buf.old out.old buf.new out.new result }
{
    let from = sizes::tail_from(kept, out.len());
    let size = residual::policy_from_decision(
        walk,
        incoming,
        &mut buf[OBLIGATION_ROOM..],
        named,
        &mut out[from..],
    );
    sizes::plus(kept, size)
}

// The same for a list with its permits first, which keeps no deny.
fn keep_node(
    walk: &Walk<'_>,
    incoming: Decision,
    kept: usize,
    buf: &mut [u8],
    named: &mut [u16],
    front: &mut [u32],
) -> usize
    requires { Few incoming × (kept ≤ too_many) × RoomToUnite 2 buf.old × RoomToName walk.now.words.now named.old }
    ensures { NodeKept (table_of walk.now.facts.now) walk.now.words.now incoming kept buf.old front.old buf.new front.new result }
{
    if !incoming.permit {
        return kept;
    }
    lay_node(walk, incoming, kept, buf, named, front)
}

// The decision so far, if there is one, and one more, under All or Any. It is compiled into the list rules: with a call for each arm, wide lists with their
// permits first take 1.5 to 2.3 times as long.
#[inline(always)]
fn fold_next(
    words: &[u32],
    outcomes: Option<OutcomeTable<'_>>,
    kind: ListKind,
    sofar: Option<Decision>,
    incoming: Decision,
    buf: &mut [u8],
) -> Decision
    requires { IfSome sofar Few × Few incoming × RoomToUnite 2 buf.old }
    ensures { Folds (fold_next kind (carried outcomes.entry)) words.now sofar buf.old incoming (drop obligation_room buf.old) result buf.new }
{
    match kind {
        ListKind::All => evaluate::meet_next(words, outcomes, sofar, incoming, buf),
        ListKind::Any => evaluate::join_next(words, outcomes, sofar, incoming, buf),
    }
}

// One more arm that was resolved: of a list with its permits first, only a permit is kept.
pub fn with_decision(
    walk: &Walk<'_>,
    outcomes: Option<OutcomeTable<'_>>,
    kind: ListKind,
    sofar: Sofar,
    incoming: Decision,
    buf: &mut [u8],
    named: &mut [u16],
    front: &mut [u32],
) -> Sofar
    requires { Bounded sofar × (sofar.arms < 2 ^ count_bits) × Few incoming × RoomToUnite 2 buf.old × RoomToName walk.now.words.now named.old }
    ensures { DecisionAdded kind (carried outcomes.entry) (table_of walk.now.facts.now) walk.now.words.now sofar incoming buf.old front.old buf.new front.new result }
{
    let kept = keep_node(walk, incoming, sofar.kept, buf, named, front);
    let decision = fold_next(walk.words, outcomes, kind, sofar.decision, incoming, buf);
    Sofar {
        decision: Some(decision),
        kept,
        arms: sofar.arms + incoming.permit as u32,
        ..sofar
    }
}

// One more arm that is pending, whose words were laid behind those before it.
pub fn with_pending(sofar: Sofar, size: usize) -> Sofar
    requires { Bounded sofar × (sofar.arms < 2 ^ count_bits) × (size ≤ too_many) }
    ensures { result ≡ with_pending sofar size }
{
    Sofar {
        size: sizes::plus(sofar.size, size),
        arms: sofar.arms + 1,
        pending: true,
        ..sofar
    }
}

// One more arm of a list in sheet order that was resolved, whose node is laid behind the arms before it. Once an arm is pending the list has no decision.
pub fn with_decision_in_order(
    walk: &Walk<'_>,
    outcomes: Option<OutcomeTable<'_>>,
    kind: ListKind,
    sofar: Sofar,
    incoming: Decision,
    buf: &mut [u8],
    named: &mut [u16],
    out: &mut [u32],
) -> Sofar
    requires { Bounded sofar × (sofar.arms < 2 ^ count_bits) × Few incoming × RoomToUnite 2 buf.old × RoomToName walk.now.words.now named.old }
    ensures { DecisionHeld kind (carried outcomes.entry) (table_of walk.now.facts.now) walk.now.words.now sofar incoming buf.old out.old buf.new out.new result }
{
    let size = lay_node(walk, incoming, sofar.size, buf, named, out);
    let arms = sofar.arms + 1;
    if sofar.pending {
        return Sofar {
            size,
            arms,
            ..sofar
        };
    }
    let decision = fold_next(walk.words, outcomes, kind, sofar.decision, incoming, buf);
    Sofar {
        decision: Some(decision),
        size,
        arms,
        ..sofar
    }
}

// The lead of a list of policies; `partial_condition` has that of conditions, with their kinds.
fn lead(kind: ListKind, arms: u32) -> u32
    requires { arms ≤ 2 ^ count_bits }
    ensures { result ≡ word (list_kind kind) arms }
{
    let without_arms = match kind {
        ListKind::All => policy_model::LEAD_POLICY_ALL,
        ListKind::Any => policy_model::LEAD_POLICY_ANY,
    };
    without_arms + arms
}

// The nodes that an Any with pending arms keeps: without permits it holds its first deny first.
fn with_first_deny(
    walk: &Walk<'_>,
    sofar: Sofar,
    buf: &mut [u8],
    named: &mut [u16],
    front: &mut [u32],
) -> Sofar
    requires { Bounded sofar × (sofar.arms < 2 ^ count_bits) × RoomToUnite 1 buf.old × RoomToName walk.now.words.now named.old }
    ensures { NodesEnd Any (table_of walk.now.facts.now) walk.now.words.now sofar buf.old front.old front.new result }
{
    let Some(decision) = sofar.decision else {
        return sofar;
    };
    if decision.permit {
        return sofar;
    }
    let kept = residual::policy_from_decision(walk, decision, buf, named, front);
    Sofar {
        kept,
        arms: sofar.arms + 1,
        ..sofar
    }
}

// A list whose arms are all read: without pending arms it is resolved, else its nodes are put before them.
pub fn end_list(
    walk: &Walk<'_>,
    kind: ListKind,
    sofar: Sofar,
    buf: &mut [u8],
    named: &mut [u16],
    front: &mut [u32],
    out: &mut [u32],
) -> Reduced
    requires { Bounded sofar × (sofar.arms < 2 ^ count_bits) × RoomToUnite 1 buf.old × RoomToName walk.now.words.now named.old }
    ensures { ListEnds kind (table_of walk.now.facts.now) walk.now.words.now sofar buf.old front.old out.old buf.new out.new result }
{
    if !sofar.pending {
        return Reduced::Resolved(sofar.decision.unwrap_or(decision::denied()));
    }
    let whole = match kind {
        ListKind::All => sofar,
        ListKind::Any => with_first_deny(walk, sofar, buf, named, front),
    };
    let first = lead(kind, whole.arms);
    let size = residual::put_list(first, front, whole.kept, out, whole.size);
    Reduced::Pending(size)
}

// A list in sheet order whose arms are all read: without pending arms it is resolved, else its lead is put before them.
pub fn end_in_order(kind: ListKind, sofar: Sofar, out: &mut [u32]) -> Reduced
    requires { Bounded sofar × (sofar.arms ≤ 2 ^ count_bits) }
    ensures { (T : Table) (W buf : List ℕ) → OrderEnds kind T W sofar buf out.old out.new result }
{
    if !sofar.pending {
        return Reduced::Resolved(sofar.decision.unwrap_or(decision::denied()));
    }
    partial_condition::put_first(lead(kind, sofar.arms), out);
    Reduced::Pending(sofar.size)
}

// An All in sheet order that a resolved deny ends: where no arm before it is pending the deny is its decision, else the deny is the last arm that is kept.
pub fn end_at_deny(
    walk: &Walk<'_>,
    sofar: Sofar,
    deny: Decision,
    buf: &mut [u8],
    named: &mut [u16],
    out: &mut [u32],
) -> Reduced
    requires { Bounded sofar × (sofar.arms < 2 ^ count_bits) × Few deny × RoomToUnite 2 buf.old × RoomToName walk.now.words.now named.old }
    ensures { DenyEnds (table_of walk.now.facts.now) walk.now.words.now sofar deny buf.old out.old buf.new out.new result }
{
    if !sofar.pending {
        return Reduced::Resolved(deny);
    }
    let whole = Sofar {
        size: lay_node(walk, deny, sofar.size, buf, named, out),
        arms: sofar.arms + 1,
        ..sofar
    };
    end_in_order(ListKind::All, whole, out)
}
