// Evaluation of policies, after gatekeep's evaluate.rs. A policy hands its arms to the list rule, and the list rule hands each arm back.
// Lent down the walk: the consulted list, and `buf`, room for the obligations of each level that is left and of one more, where a list rule keeps united
// obligations at the front and lends the tail to its arms.
// A sheet is read as a residual is: where nodes 12 and 13 don't stand, it makes no difference that they may.
#![tactic(auto)]

ghost use Rattle.std.specs.Prelude.{◌≡◌, Some, None, IfSome, List, ℕ, ◌+◌, ◌≤◌, ◌<◌, length, drop};
ghost use Rattle.std.proofs.Math.Option.{Option};
ghost use Rattle.model.specs.Facts.{table_of};
ghost use Rattle.model.specs.Levels as model;
ghost use Rattle.outcome.specs.Carried.{carried};
ghost use Rattle.model.specs.Reading.{levels, record_words};
ghost use Rattle.policy_model.specs.declared.DenyShape.{DenyShape};
ghost use Rattle.policy_model.specs.declared.PolicyHead.TheVariants.{Grant, All, Any, OrElse};
ghost use Rattle.consulted.specs.Listing.{held};
ghost use Rattle.decision.specs.Meaning.{denied_at, permitted_at};
ghost use Rattle.decision.specs.Room.{obligation_room, RoomToUnite, Few};
ghost use Rattle.evaluate.specs.Folding.{meet_next, join_next};
ghost use Rattle.evaluate.specs.Evaluating.{eval_of, after_node, EvaluatesP, EvaluatesBy, Folds};

use condition::Walk;
use consulted::Consulted;
use decision::{Decision, OBLIGATION_ROOM};
use outcome::{Operation, OutcomeTable};
use policy_model::PolicyHead;

// What an evaluation reads: what a walk does, and the outcome table, where there is one.
#[derive(Clone, Copy)]
pub struct Evaluation<'a> {
    pub walk: Walk<'a>,
    pub outcomes: Option<OutcomeTable<'a>>,
    ghost bounded: { length walk.words.now ≤ record_words },
}

// What was decided, and the position after the policy's words. A type of its own beside `ConditionEval`, whose field says `satisfied`, as gatekeep's does.
#[derive(Drop)]
pub struct PolicyEval {
    pub decision: Decision,
    pub next: usize,
}

// A deny with nothing named: the answer to a Deny, and where no policy reads: past the end, with no level left, of a Grant cut short, of another kind.
fn denied(next: usize) -> PolicyEval
    ensures { result ≡ eval_of (denied_at None) next }
{
    PolicyEval {
        decision: decision::denied(),
        next,
    }
}

// A permit with nothing but its outcome.
fn permitted(outcome: u16, next: usize) -> PolicyEval
    ensures { result ≡ eval_of (permitted_at outcome None None 0) next }
{
    PolicyEval {
        decision: decision::permitted(outcome),
        next,
    }
}

// The decision so far under All, if there was an arm, and that of one more: two permits are met, and else the arm's is taken, though the list rules end at a
// deny. `partial_list` folds by this and `join_next` too, and asks no bound of its words: so both take words and table, and no `Evaluation`.
#[inline(always)]
pub fn meet_next(
    words: &[u32],
    outcomes: Option<OutcomeTable<'_>>,
    sofar: Option<Decision>,
    arm: Decision,
    buf: &mut [u8],
) -> Decision
    requires { IfSome sofar Few × Few arm × RoomToUnite 2 buf.old }
    ensures few { Few result }
    ensures folds { Folds (meet_next (carried outcomes.entry)) words.now sofar buf.old arm (drop obligation_room buf.old) result buf.new }
{
    let Some(earlier) = sofar else {
        return decision::keep(arm, buf);
    };
    if earlier.permit && arm.permit {
        let both = earlier
            .products()
            .by(Operation::Meet, arm.products(), outcomes);
        return decision::meet(words, both.bits, earlier, arm, buf);
    }
    decision::keep(arm, buf)
}

// The same under Any: two permits are joined, and of two denies the first stands. Not one function: which arm stands differs in each case. Both are compiled
// into the list rules, as `decision::unite` says.
#[inline(always)]
pub fn join_next(
    words: &[u32],
    outcomes: Option<OutcomeTable<'_>>,
    sofar: Option<Decision>,
    arm: Decision,
    buf: &mut [u8],
) -> Decision
    requires { IfSome sofar Few × Few arm × RoomToUnite 2 buf.old }
    ensures few { Few result }
    ensures folds { Folds (join_next (carried outcomes.entry)) words.now sofar buf.old arm (drop obligation_room buf.old) result buf.new }
{
    let Some(earlier) = sofar else {
        return decision::keep(arm, buf);
    };
    if !arm.permit {
        return earlier;
    }
    if !earlier.permit {
        return decision::keep(arm, buf);
    }
    let either = earlier
        .products()
        .by(Operation::Join, arm.products(), outcomes);
    decision::join(words, either.bits, earlier, arm, buf)
}

impl Evaluation<'_> {
    // A grant at `at`, whose condition has at most `depth` levels. It is compiled into the list rules, since with a call its decision is laid in memory.
    #[inline(always)]
    fn eval_grant(&self, at: usize, depth: usize, consulted: &mut Consulted<'_>) -> PolicyEval
        requires { (at < length self.now.walk.words.now) × (depth < levels) }
        ensures { (g : Option model.OutcomeTable) (shape : DenyShape) (obligations outcome : ℕ) (buf : List ℕ) → EvaluatesBy g (Grant shape obligations outcome) (table_of self.now.walk.facts.now) self.now.walk.words.now at depth (held consulted.old) result (held consulted.new) buf }
    {
        let before = grant::before_condition_in(self.walk.words, at) as usize;
        if self.walk.words.len() - at < before {
            return denied(at);
        }
        let outcome = grant::outcome_in(self.walk.words, at) as u16;
        let condition = self.walk.eval_arm(at + before, depth, consulted);
        PolicyEval {
            decision: decision::granted(condition.satisfied, outcome, at),
            next: condition.next,
        }
    }

    // The stored decision at `at`. Whether all its words are there is not asked: its lists aren't read here, and a position past the end reads as nothing.
    fn stored(&self, at: usize, decision: Decision) -> PolicyEval
        requires { at < length self.now.walk.words.now }
        ensures { result ≡ eval_of decision (after_node self.now.walk.words.now at) }
    {
        PolicyEval {
            decision,
            next: at + 1 + policy_model::own_of(self.walk.words, at),
        }
    }

    // The policy at `at`, of at most `depth` levels.
    #[cycle(evaluation)]
    pub fn eval_policy(
        &self,
        at: usize,
        depth: usize,
        consulted: &mut Consulted<'_>,
        buf: &mut [u8],
    ) -> PolicyEval
        requires { (depth ≤ levels) × RoomToUnite (depth + 1) buf.old }
        ensures { EvaluatesP (carried self.now.outcomes) (table_of self.now.walk.facts.now) self.now.walk.words.now at depth (held consulted.old) result (held consulted.new) buf.new }
    {
        if self.walk.words.len() <= at || depth == 0 {
            return denied(at);
        }
        let next = at + 1;
        let below = depth - 1;
        match policy_model::policy_head(self.walk.words[at], true) {
            PolicyHead::Permit(outcome) => permitted(outcome, next),
            PolicyHead::Deny => denied(next),
            PolicyHead::Grant { .. } => self.eval_grant(at, below, consulted),
            PolicyHead::All(arms) => self.eval_all(at, below, arms, consulted, buf),
            PolicyHead::Any(arms) => self.eval_any(at, below, arms, consulted, buf),
            PolicyHead::OrElse => self.eval_or_else(at, below, consulted, buf),
            PolicyHead::PermitWithTrace { outcome, .. } => {
                self.stored(at, decision::permitted_by(outcome, Some(at)))
            }
            PolicyHead::DenyWithTrace { .. } => self.stored(at, decision::denied_by(Some(at))),
            PolicyHead::BadKind | PolicyHead::BadField => denied(at),
        }
    }

    // The same of an arm of a list rule. A Permit and a Grant, the commonest arms of a wide list, are answered here, with no call of `eval_policy`. It is
    // compiled into the list rules, and what `eval_policy` answers is taken apart: handed on whole, it would have every arm's answer laid in memory.
    #[cycle(evaluation)]
    #[inline(always)]
    fn eval_arm(
        &self,
        at: usize,
        depth: usize,
        consulted: &mut Consulted<'_>,
        buf: &mut [u8],
    ) -> PolicyEval
        requires { (depth ≤ levels) × RoomToUnite (depth + 1) buf.old }
        ensures { EvaluatesP (carried self.now.outcomes) (table_of self.now.walk.facts.now) self.now.walk.words.now at depth (held consulted.old) result (held consulted.new) buf.new }
    {
        if self.walk.words.len() <= at {
            return denied(at);
        }
        let word = self.walk.words[at];
        if word / policy_model::HALF == policy_model::PERMIT {
            return permitted((word % policy_model::HALF) as u16, at + 1);
        }
        if word / policy_model::KIND == policy_model::KIND_GRANT && depth != 0 {
            return self.eval_grant(at, depth - 1, consulted);
        }
        let below = self.eval_policy(at, depth, consulted, buf);
        PolicyEval {
            decision: below.decision,
            next: below.next,
        }
    }

    // The All at `at`, whose `arms` have at most `depth` levels: meets the permits, or denies with the first denying arm. Arms after that one aren't read.
    #[cycle(evaluation)]
    fn eval_all(
        &self,
        at: usize,
        depth: usize,
        arms: u32,
        consulted: &mut Consulted<'_>,
        buf: &mut [u8],
    ) -> PolicyEval
        requires { (at < length self.now.walk.words.now) × (depth < levels) × RoomToUnite (depth + 2) buf.old }
        ensures { EvaluatesBy (carried self.now.outcomes) (All arms) (table_of self.now.walk.facts.now) self.now.walk.words.now at depth (held consulted.old) result (held consulted.new) buf.new }
    {
        let mut sofar: Option<Decision> = None;
        let mut next = at + 1;
        for left in (0..arms).rev() {
            let arm = self.eval_arm(next, depth, consulted, &mut buf[OBLIGATION_ROOM..]);
            next = arm.next;
            let decision = arm.decision;
            if !decision.permit {
                return PolicyEval {
                    decision,
                    next: policy_model::skip_policies(self.walk.words, next, left),
                };
            }
            let folded = meet_next(self.walk.words, self.outcomes, sofar, decision, buf);
            sofar = Some(folded);
        }
        PolicyEval {
            decision: sofar.unwrap_or(decision::denied()),
            next,
        }
    }

    // The Any at `at`, whose `arms` have at most `depth` levels: joins the permits, or denies with the first deny. Every arm is read. Beside
    // `eval_all`: which arm ends a list, and which decision is kept, is all that either says.
    #[cycle(evaluation)]
    fn eval_any(
        &self,
        at: usize,
        depth: usize,
        arms: u32,
        consulted: &mut Consulted<'_>,
        buf: &mut [u8],
    ) -> PolicyEval
        requires { (at < length self.now.walk.words.now) × (depth < levels) × RoomToUnite (depth + 2) buf.old }
        ensures { EvaluatesBy (carried self.now.outcomes) (Any arms) (table_of self.now.walk.facts.now) self.now.walk.words.now at depth (held consulted.old) result (held consulted.new) buf.new }
    {
        let mut sofar: Option<Decision> = None;
        let mut next = at + 1;
        for _ in 0..arms {
            let arm = self.eval_arm(next, depth, consulted, &mut buf[OBLIGATION_ROOM..]);
            next = arm.next;
            let folded = join_next(self.walk.words, self.outcomes, sofar, arm.decision, buf);
            sofar = Some(folded);
        }
        PolicyEval {
            decision: sofar.unwrap_or(decision::denied()),
            next,
        }
    }

    // The OrElse at `at`, whose two policies have at most `depth` levels: the fallback is read only where the primary denies.
    #[cycle(evaluation)]
    fn eval_or_else(
        &self,
        at: usize,
        depth: usize,
        consulted: &mut Consulted<'_>,
        buf: &mut [u8],
    ) -> PolicyEval
        requires { (at < length self.now.walk.words.now) × (depth < levels) × RoomToUnite (depth + 1) buf.old }
        ensures { EvaluatesBy (carried self.now.outcomes) OrElse (table_of self.now.walk.facts.now) self.now.walk.words.now at depth (held consulted.old) result (held consulted.new) buf.new }
    {
        let primary = self.eval_policy(at + 1, depth, consulted, buf);
        let next = primary.next;
        let decision = primary.decision;
        if decision.permit {
            return PolicyEval {
                decision,
                next: policy_model::skip_policies(self.walk.words, next, 1),
            };
        }
        self.eval_policy(next, depth, consulted, buf)
    }
}
