// Policies reduced, after gatekeep's partial.rs: a policy under a table that leaves facts open is resolved, or what is left of it is written to the front
// of `out`, which may be too short for it: then only its size is right. A policy hands its arms to the list rule, and the list rule hands each arm back.
// There are two list rules: with its permits first, or in sheet order (request 8). Lent down the walk, besides: the consulted list and `buf`, as in
// `evaluate`, and `named` and `front`, as in `partial_list`; a list with its permits first lends the tail of `front` to its arms. These and
// `out` are parameters of their own: a list rule lends its arms other tails of `buf`, `front` and `out`, so a struct of them would be made anew for each arm.
#![tactic(auto)]

ghost use Rattle.std.specs.Prelude.{◌≡◌, true, List, ℕ, ◌+◌, ◌^◌, ◌≤◌, ◌<◌, length};
ghost use Rattle.model.specs.Facts.{table_of};
ghost use Rattle.outcome.specs.Carried.{carried};
ghost use Rattle.model.specs.Partial.{permits_first, sheet_order};
ghost use Rattle.model.specs.Writing.{count_bits};
ghost use Rattle.model.specs.Reading.{levels as most_levels, record_words};
ghost use Rattle.policy_model.specs.declared.DenyShape.{DenyShape};
ghost use Rattle.policy_model.specs.declared.PolicyHead.TheVariants.{Grant, OrElse};
ghost use Rattle.consulted.specs.Listing.{held};
ghost use Rattle.sizes.specs.Laid.{too_many, Laid};
ghost use Rattle.decision.specs.Room.{RoomToUnite};
ghost use Rattle.clause.specs.Room.{RoomToName};
ghost use Rattle.partial_list.specs.Answers.{resolved_to, Fit};
ghost use Rattle.partial_policy.specs.Reducing.{order_of, list_head, stopped_at, ReducesP, ReducesBy, ReducesConstant, SettledGrant, ResidualLaid, OrElsePut};

use consulted::Consulted;
use decision::{Decision, OBLIGATION_ROOM};
use evaluate::Evaluation;
use partial_list::{ListKind, Reduced, ReducedPolicy};
use policy_model::PolicyHead;

// How the arms of a list stand in what is left of it.
#[derive(Clone, Copy, PartialEq, Eq)]
pub enum Order {
    PermitsFirst,
    SheetOrder,
}

// What a reduction reads, and the order of the lists that are left.
#[derive(Clone, Copy)]
pub struct Reduction<'a> {
    pub evaluation: Evaluation<'a>,
    pub order: Order,
}

fn resolved(decision: Decision, next: usize) -> ReducedPolicy
    ensures { result ≡ resolved_to decision next }
{
    ReducedPolicy {
        to: Reduced::Resolved(decision),
        next,
    }
}

// Lays these words as they stand.
fn lay_words(src: &[u32], out: &mut [u32])
    requires { length src.now ≤ record_words }
    ensures { Laid (length src.now) src.now out.new (length src.now) }
{
    if src.len() <= out.len() {
        out[..src.len()].copy_from_slice(src);
    }
}

// A resolved deny stops an All, in either list rule.
fn stops(kind: ListKind, decision: Decision) -> bool
    ensures { result ≡ stopped_at kind decision }
{
    match kind {
        ListKind::All => !decision.permit,
        ListKind::Any => false,
    }
}

impl Reduction<'_> {
    // A grant at `at`. A known one is decided by its condition's value; of a pending one its own words are kept, and what is left of its condition.
    fn reduce_grant(
        &self,
        at: usize,
        depth: usize,
        consulted: &mut Consulted<'_>,
        out: &mut [u32],
    ) -> ReducedPolicy
        requires { (at < length self.now.evaluation.walk.words.now) × (depth < most_levels) }
        ensures { (shape : DenyShape) (obligations outcome : ℕ) (buf : List ℕ) (room : ℕ) → ReducesBy (carried self.now.evaluation.outcomes) (order_of self.now.order) (Grant shape obligations outcome) (table_of self.now.evaluation.walk.facts.now) self.now.evaluation.walk.words.now at depth (held consulted.old) result (held consulted.new) buf room out.new }
    {
        let walk = &self.evaluation.walk;
        let words = walk.words;
        let own = grant::before_condition_in(words, at) as usize;
        if words.len() - at < own {
            return resolved(decision::denied(), at);
        }
        lay_words(&words[at..at + own], out);
        let from = sizes::tail_from(own, out.len());
        let rest = &mut out[from..];
        let condition = partial_condition::reduce_condition(walk, at + own, depth, consulted, rest);
        let next = condition.next;
        match condition.to {
            partial_condition::Reduced::Pending(size) => ReducedPolicy {
                to: Reduced::Pending(sizes::plus(own, size)),
                next,
            },
            partial_condition::Reduced::Known(satisfied) => {
                let outcome = grant::outcome_in(words, at) as u16;
                resolved(decision::granted(satisfied, outcome, at), next)
            }
        }
    }

    // Whether a grant on one fact that is settled stands at `at`, told by its three words.
    fn settled_grant(&self, at: usize) -> bool
        requires { at < length self.now.evaluation.walk.words.now }
        ensures { result ≡ true → SettledGrant (table_of self.now.evaluation.walk.facts.now) self.now.evaluation.walk.words.now at }
    {
        let words = self.evaluation.walk.words;
        if !policy_model::plain_grant(words, at) {
            return false;
        }
        facts::settled(
            self.evaluation.walk.facts,
            words[at + 2] % policy_model::FACTS,
        )
    }

    // That grant: nothing of it is open, so its condition is evaluated.
    fn reduce_on_fact(&self, at: usize, consulted: &mut Consulted<'_>) -> ReducedPolicy
        requires { SettledGrant (table_of self.now.evaluation.walk.facts.now) self.now.evaluation.walk.words.now at }
        ensures { (depth : ℕ) (buf : List ℕ) (room : ℕ) (out : List ℕ) → ReducesP (carried self.now.evaluation.outcomes) (order_of self.now.order) (table_of self.now.evaluation.walk.facts.now) self.now.evaluation.walk.words.now at depth (held consulted.old) result (held consulted.new) buf room out }
    {
        let words = self.evaluation.walk.words;
        let outcome = grant::outcome_in(words, at) as u16;
        // its condition is its third word and its last
        let fact = words[at + 2] % policy_model::FACTS;
        let satisfied = self.evaluation.walk.eval_has(fact, consulted);
        let decision = decision::granted(satisfied, outcome, at);
        resolved(decision, at + 3)
    }

    // A Permit, a Deny or a stored decision at `at`, and words that don't read: nothing is open, so it is evaluated.
    fn reduce_constant(
        &self,
        at: usize,
        depth: usize,
        consulted: &mut Consulted<'_>,
        buf: &mut [u8],
    ) -> ReducedPolicy
        requires { (depth ≤ most_levels) × RoomToUnite (depth + 1) buf.old }
        ensures { ReducesConstant (carried self.now.evaluation.outcomes) (table_of self.now.evaluation.walk.facts.now) self.now.evaluation.walk.words.now at depth (held consulted.old) result (held consulted.new) buf.new }
    {
        let eval = self.evaluation.eval_policy(at, depth, consulted, buf);
        resolved(eval.decision, eval.next)
    }

    // Lays what stands for a part in a residual: what is left of it stands there already, and a resolved part is laid as its node.
    fn as_residual(
        &self,
        part: Reduced,
        buf: &mut [u8],
        named: &mut [u16],
        out: &mut [u32],
    ) -> usize
        requires { Fit part × RoomToUnite 1 buf.old × RoomToName self.now.evaluation.walk.words.now named.old }
        ensures { ResidualLaid (table_of self.now.evaluation.walk.facts.now) self.now.evaluation.walk.words.now part buf.old out.old out.new result }
    {
        match part {
            Reduced::Pending(size) => size,
            Reduced::Resolved(decision) => residual::policy_from_decision(
                &self.evaluation.walk,
                decision,
                buf,
                named,
                out,
            ),
        }
    }

    // The fallback behind a pending primary, which takes the first `used` words with the free one before it: a resolved one is laid as its node.
    fn end_or_else(
        &self,
        used: usize,
        fallback: Reduced,
        buf: &mut [u8],
        named: &mut [u16],
        out: &mut [u32],
    ) -> usize
        requires { (used ≤ too_many) × (1 ≤ used) × Fit fallback × RoomToUnite 1 buf.old × RoomToName self.now.evaluation.walk.words.now named.old }
        ensures { OrElsePut (table_of self.now.evaluation.walk.facts.now) self.now.evaluation.walk.words.now used fallback buf.old out.old out.new result }
    {
        let from = sizes::tail_from(used, out.len());
        let size = self.as_residual(fallback, buf, named, &mut out[from..]);
        partial_condition::put_first(policy_model::LEAD_OR_ELSE, out);
        sizes::plus(used, size)
    }

    // The policy at `at`, of at most `depth` levels.
    #[cycle(reduction)]
    pub fn reduce_policy(
        &self,
        at: usize,
        depth: usize,
        consulted: &mut Consulted<'_>,
        buf: &mut [u8],
        named: &mut [u16],
        front: &mut [u32],
        out: &mut [u32],
    ) -> ReducedPolicy
        requires { (depth ≤ most_levels) × RoomToUnite (depth + 1) buf.old × RoomToName self.now.evaluation.walk.words.now named.old }
        ensures { ReducesP (carried self.now.evaluation.outcomes) (order_of self.now.order) (table_of self.now.evaluation.walk.facts.now) self.now.evaluation.walk.words.now at depth (held consulted.old) result (held consulted.new) buf.new (length front.old) out.new }
    {
        let words = self.evaluation.walk.words;
        if words.len() <= at || depth == 0 {
            return resolved(decision::denied(), at);
        }
        let below = depth - 1;
        match policy_model::policy_head(words[at], true) {
            PolicyHead::Grant { .. } => self.reduce_grant(at, below, consulted, out),
            PolicyHead::All(arms) => {
                let kind = ListKind::All;
                self.reduce_list(at, below, arms, kind, consulted, buf, named, front, out)
            }
            PolicyHead::Any(arms) => {
                let kind = ListKind::Any;
                self.reduce_list(at, below, arms, kind, consulted, buf, named, front, out)
            }
            PolicyHead::OrElse => {
                self.reduce_or_else(at, below, consulted, buf, named, front, out)
            }
            _ => self.reduce_constant(at, depth, consulted, buf),
        }
    }

    // The same of an arm of a list with its permits first. A Permit and a grant on one settled fact, the commonest arms of a wide list, are answered here. It
    // is compiled into the list rule, and what `reduce_policy` answers is taken apart, as in evaluate's `eval_arm`.
    #[cycle(reduction)]
    #[inline(always)]
    fn reduce_arm(
        &self,
        at: usize,
        depth: usize,
        consulted: &mut Consulted<'_>,
        buf: &mut [u8],
        named: &mut [u16],
        front: &mut [u32],
        out: &mut [u32],
    ) -> ReducedPolicy
        requires { (depth ≤ most_levels) × RoomToUnite (depth + 1) buf.old × RoomToName self.now.evaluation.walk.words.now named.old }
        ensures { ReducesP (carried self.now.evaluation.outcomes) (order_of self.now.order) (table_of self.now.evaluation.walk.facts.now) self.now.evaluation.walk.words.now at depth (held consulted.old) result (held consulted.new) buf.new (length front.old) out.new }
    {
        let words = self.evaluation.walk.words;
        if at < words.len() {
            let word = words[at];
            if word / policy_model::HALF == policy_model::PERMIT {
                let outcome = (word % policy_model::HALF) as u16;
                return resolved(decision::permitted(outcome), at + 1);
            }
            if self.settled_grant(at) {
                return self.reduce_on_fact(at, consulted);
            }
        }
        let below = self.reduce_policy(at, depth, consulted, buf, named, front, out);
        ReducedPolicy {
            to: below.to,
            next: below.next,
        }
    }

    // The All or Any at `at`, whose `arms` have at most `depth` levels, by the list rule of the order. It is called at two places, so that it isn't
    // compiled into a policy's frame, of which there is one for each level.
    #[cycle(reduction)]
    fn reduce_list(
        &self,
        at: usize,
        depth: usize,
        arms: u32,
        kind: ListKind,
        consulted: &mut Consulted<'_>,
        buf: &mut [u8],
        named: &mut [u16],
        front: &mut [u32],
        out: &mut [u32],
    ) -> ReducedPolicy
        requires { (at < length self.now.evaluation.walk.words.now) × (depth < most_levels) × (arms < 2 ^ count_bits) × RoomToUnite (depth + 2) buf.old × RoomToName self.now.evaluation.walk.words.now named.old }
        ensures { ReducesBy (carried self.now.evaluation.outcomes) (order_of self.now.order) (list_head kind arms) (table_of self.now.evaluation.walk.facts.now) self.now.evaluation.walk.words.now at depth (held consulted.old) result (held consulted.new) buf.new (length front.old) out.new }
    {
        match self.order {
            Order::PermitsFirst => {
                self.reduce_permits_first(at, depth, arms, kind, consulted, buf, named, front, out)
            }
            Order::SheetOrder => {
                self.reduce_in_order(at, depth, arms, kind, consulted, buf, named, front, out)
            }
        }
    }

    // The list with its permits first. All stops at a resolved deny, which is its answer, and arms after that one aren't read; Any reads every arm. Beside
    // `reduce_in_order`: request 8's is a second rule, with one place for what is laid, and with another end at a deny.
    #[cycle(reduction)]
    fn reduce_permits_first(
        &self,
        at: usize,
        depth: usize,
        arms: u32,
        kind: ListKind,
        consulted: &mut Consulted<'_>,
        buf: &mut [u8],
        named: &mut [u16],
        front: &mut [u32],
        out: &mut [u32],
    ) -> ReducedPolicy
        requires { (at < length self.now.evaluation.walk.words.now) × (depth < most_levels) × (arms < 2 ^ count_bits) × RoomToUnite (depth + 2) buf.old × RoomToName self.now.evaluation.walk.words.now named.old × (order_of self.now.order ≡ permits_first) }
        ensures { ReducesBy (carried self.now.evaluation.outcomes) (order_of self.now.order) (list_head kind arms) (table_of self.now.evaluation.walk.facts.now) self.now.evaluation.walk.words.now at depth (held consulted.old) result (held consulted.new) buf.new (length front.old) out.new }
    {
        let walk = &self.evaluation.walk;
        let outcomes = self.evaluation.outcomes;
        let mut sofar = partial_list::none_yet();
        let mut next = at + 1;
        for left in (0..arms).rev() {
            let behind = sizes::tail_from(sofar.kept, front.len());
            let from = sizes::tail_from(sofar.size, out.len());
            let arm_buf = &mut buf[OBLIGATION_ROOM..];
            let arm_front = &mut front[behind..];
            let arm_out = &mut out[from..];
            let arm = self.reduce_arm(next, depth, consulted, arm_buf, named, arm_front, arm_out);
            next = arm.next;
            match arm.to {
                Reduced::Pending(size) => sofar = partial_list::with_pending(sofar, size),
                Reduced::Resolved(decision) => {
                    if stops(kind, decision) {
                        let end = policy_model::skip_policies(walk.words, next, left);
                        return resolved(decision, end);
                    }
                    sofar = partial_list::with_decision(
                        walk, outcomes, kind, sofar, decision, buf, named, front,
                    );
                }
            }
        }
        ReducedPolicy {
            to: partial_list::end_list(walk, kind, sofar, buf, named, front, out),
            next,
        }
    }

    // The list in sheet order. A resolved deny ends All: where no arm before it is pending it is the answer, else it is the last arm that is kept.
    #[cycle(reduction)]
    fn reduce_in_order(
        &self,
        at: usize,
        depth: usize,
        arms: u32,
        kind: ListKind,
        consulted: &mut Consulted<'_>,
        buf: &mut [u8],
        named: &mut [u16],
        front: &mut [u32],
        out: &mut [u32],
    ) -> ReducedPolicy
        requires { (at < length self.now.evaluation.walk.words.now) × (depth < most_levels) × (arms < 2 ^ count_bits) × RoomToUnite (depth + 2) buf.old × RoomToName self.now.evaluation.walk.words.now named.old × (order_of self.now.order ≡ sheet_order) }
        ensures { ReducesBy (carried self.now.evaluation.outcomes) (order_of self.now.order) (list_head kind arms) (table_of self.now.evaluation.walk.facts.now) self.now.evaluation.walk.words.now at depth (held consulted.old) result (held consulted.new) buf.new (length front.old) out.new }
    {
        let walk = &self.evaluation.walk;
        let outcomes = self.evaluation.outcomes;
        let mut sofar = partial_list::none_yet();
        let mut next = at + 1;
        for left in (0..arms).rev() {
            let from = sizes::tail_from(sofar.size, out.len());
            let arm_buf = &mut buf[OBLIGATION_ROOM..];
            let arm_out = &mut out[from..];
            let arm = self.reduce_policy(next, depth, consulted, arm_buf, named, front, arm_out);
            next = arm.next;
            match arm.to {
                Reduced::Pending(size) => sofar = partial_list::with_pending(sofar, size),
                Reduced::Resolved(decision) => {
                    if stops(kind, decision) {
                        return ReducedPolicy {
                            to: partial_list::end_at_deny(walk, sofar, decision, buf, named, out),
                            next: policy_model::skip_policies(walk.words, next, left),
                        };
                    }
                    sofar = partial_list::with_decision_in_order(
                        walk, outcomes, kind, sofar, decision, buf, named, out,
                    );
                }
            }
        }
        ReducedPolicy {
            to: partial_list::end_in_order(kind, sofar, out),
            next,
        }
    }

    // The OrElse at `at`, whose two policies have at most `depth` levels: a resolved permit of the primary is the answer, after a resolved deny the fallback
    // is, and with a pending primary both are kept, which evaluation's has no case for.
    #[cycle(reduction)]
    fn reduce_or_else(
        &self,
        at: usize,
        depth: usize,
        consulted: &mut Consulted<'_>,
        buf: &mut [u8],
        named: &mut [u16],
        front: &mut [u32],
        out: &mut [u32],
    ) -> ReducedPolicy
        requires { (at < length self.now.evaluation.walk.words.now) × (depth < most_levels) × RoomToUnite (depth + 1) buf.old × RoomToName self.now.evaluation.walk.words.now named.old }
        ensures { ReducesBy (carried self.now.evaluation.outcomes) (order_of self.now.order) OrElse (table_of self.now.evaluation.walk.facts.now) self.now.evaluation.walk.words.now at depth (held consulted.old) result (held consulted.new) buf.new (length front.old) out.new }
    {
        let from = sizes::tail_from(1, out.len());
        let rest = &mut out[from..];
        let primary = self.reduce_policy(at + 1, depth, consulted, buf, named, front, rest);
        let next = primary.next;
        match primary.to {
            Reduced::Pending(size) => {
                let used = sizes::plus(1, size);
                let behind = sizes::tail_from(used, out.len());
                let rest = &mut out[behind..];
                let fallback = self.reduce_policy(next, depth, consulted, buf, named, front, rest);
                let whole = self.end_or_else(used, fallback.to, buf, named, out);
                ReducedPolicy {
                    to: Reduced::Pending(whole),
                    next: fallback.next,
                }
            }
            Reduced::Resolved(decision) => {
                if decision.permit {
                    let end = policy_model::skip_policies(self.evaluation.walk.words, next, 1);
                    return resolved(decision, end);
                }
                self.reduce_policy(next, depth, consulted, buf, named, front, out)
            }
        }
    }
}
