// The nodes that direct evaluation visits, counted by a walk of their own: an allowance goes in, the visited count comes out. The walk knows only whether
// a node holds, keeps no list, and ends when the allowance is used up. Request 10.
#![tactic(auto)]

ghost use Rattle.std.specs.Prelude.{◌≡◌, true, false, ℕ, ◌≤◌, ◌<◌, length, drop};
ghost use Rattle.model.specs.Facts.{table_of};
ghost use Rattle.model.specs.Condition.{cnil, ccons};
ghost use Rattle.model.specs.Policy.{pnil, pcons};
ghost use Rattle.model.specs.Visits.{visits_c};
ghost use Rattle.model.specs.Reading.{record_words, many, read_condition};
ghost use Rattle.model.specs.Products.{read_policy};
ghost use Rattle.laws.specs.Size.{words_c, words_cs, words as words_t, wordss as words_ts};
ghost use Rattle.policy_model.specs.Plain.{plain_grant};
ghost use Rattle.visits.specs.Holding.{holds_c, holds_cs, visits_cs, holds_p, holds_ps, holds_any, nodes_p, nodes_ps, nodes_any};
ghost use Rattle.visits.specs.Counting.{counted_by, Counts, CountsSheet};

use policy_model::{ConditionHead, PolicyHead};

// What a walk comes to that the allowance holds: whether the node holds (a condition is satisfied, a policy permits), the position after its words and the
// nodes visited by then. Of words that don't read nothing is asked.
#[derive(Clone, Copy)]
struct Visit {
    holds: bool,
    next: usize,
    nodes: u32,
}

// What a walk reads, and how many nodes it may visit. Condition's `Walk` has two of these fields, but none of its methods
// is used here, and this crate stands apart from the evaluation that it counts.
#[derive(Clone, Copy)]
struct Walk<'a> {
    words: &'a [u32],
    facts: &'a [u8],
    allowance: u32,
    ghost bounded: { length words.now ≤ record_words },
}

impl Walk<'_> {
    // So many nodes, if the allowance holds them.
    fn counted(&self, nodes: u32, holds: bool, next: usize) -> Option<Visit>
        ensures { result ≡ counted_by self.now.allowance nodes holds next }
    {
        if self.allowance < nodes {
            return None;
        }
        Some(Visit { holds, next, nodes })
    }

    // The condition at `at`, of at most `depth` levels, after `nodes` that were visited before. Every node counts, so with none left it is over at once.
    #[cycle(condition_visits)]
    fn visit_condition(&self, at: usize, depth: usize, nodes: u32) -> Option<Visit>
        ensures { Counts words_c (holds_c (table_of self.now.facts.now)) (visits_c (table_of self.now.facts.now)) at self.now.allowance nodes (read_condition depth (drop at self.now.words.now)) result }
    {
        if self.words.len() <= at || depth == 0 || self.allowance <= nodes {
            return None;
        }
        let next = at + 1;
        let count = nodes + 1;
        let word = self.words[at];
        if word / policy_model::FACTS == policy_model::HAS {
            return self.counted(
                count,
                facts::present(self.facts, word % policy_model::FACTS),
                next,
            );
        }
        let below = depth - 1;
        match policy_model::condition_head(word) {
            ConditionHead::Always => self.counted(count, true, next),
            ConditionHead::Never => self.counted(count, false, next),
            ConditionHead::Has(fact) => {
                self.counted(count, facts::present(self.facts, fact), next)
            }
            ConditionHead::Not => {
                let arm = self.visit_condition(next, below, count)?;
                Some(Visit {
                    holds: !arm.holds,
                    ..arm
                })
            }
            ConditionHead::All(0) => self.counted(count, false, next),
            ConditionHead::All(arms) => self.visit_conditions(next, below, arms, false, count),
            ConditionHead::Any(arms) => self.visit_conditions(next, below, arms, true, count),
            ConditionHead::BadKind | ConditionHead::BadField => None,
        }
    }

    // The `arms` from `at` of an All (`stop` false) or an Any (`stop` true): an arm whose value is `stop` decides, and those after it aren't visited.
    // So `stop` is a value that is compared and returned, and no switch.
    #[cycle(condition_visits)]
    fn visit_conditions(
        &self,
        at: usize,
        depth: usize,
        arms: u32,
        stop: bool,
        nodes: u32,
    ) -> Option<Visit>
        ensures { Counts words_cs (holds_cs stop (table_of self.now.facts.now)) (visits_cs stop (table_of self.now.facts.now)) at self.now.allowance nodes (many cnil ccons (read_condition depth) arms (drop at self.now.words.now)) result }
    {
        let mut next = at;
        let mut count = nodes;
        for left in (0..arms).rev() {
            let arm = self.visit_condition(next, depth, count)?;
            next = arm.next;
            count = arm.nodes;
            if arm.holds == stop {
                let end = policy_model::skip_conditions(self.words, next, left);
                return self.counted(count, stop, end);
            }
        }
        self.counted(count, !stop, next)
    }

    // A Grant of three words on one fact, the commonest policy: two nodes.
    #[tactic(auto, using(policy_model::specs::PlainLaws::plain_inside))]
    fn visit_plain(&self, at: usize, nodes: u32) -> Option<Visit>
        requires { (plain_grant (drop at self.now.words.now) ≡ true) × (nodes < self.now.allowance) }
        ensures { (depth : ℕ) → Counts words_t (holds_p (table_of self.now.facts.now)) (nodes_p (table_of self.now.facts.now)) at self.now.allowance nodes (read_policy false depth (drop at self.now.words.now)) result }
    {
        if self.allowance - nodes < 2 {
            return None;
        }
        let fact = self.words[at + 2] % policy_model::FACTS;
        self.counted(nodes + 2, facts::present(self.facts, fact), at + 3)
    }

    // The policy at `at`, of at most `depth` levels, in a sheet.
    #[cycle(policy_visits)]
    fn visit_policy(&self, at: usize, depth: usize, nodes: u32) -> Option<Visit>
        ensures { Counts words_t (holds_p (table_of self.now.facts.now)) (nodes_p (table_of self.now.facts.now)) at self.now.allowance nodes (read_policy false depth (drop at self.now.words.now)) result }
    {
        if self.words.len() <= at || depth == 0 || self.allowance <= nodes {
            return None;
        }
        let next = at + 1;
        let count = nodes + 1;
        let below = depth - 1;
        match policy_model::policy_head(self.words[at], false) {
            PolicyHead::Permit(_) => self.counted(count, true, next),
            PolicyHead::Deny => self.counted(count, false, next),
            PolicyHead::Grant { .. } => {
                let before = grant::before_condition_in(self.words, at) as usize;
                self.visit_condition(at + before, below, count)
            }
            PolicyHead::All(0) => self.counted(count, false, next),
            PolicyHead::All(arms) => self.visit_policies(next, below, arms, false, count),
            PolicyHead::Any(arms) => self.visit_any(next, below, arms, count),
            PolicyHead::OrElse => self.visit_policies(next, below, 2, true, count),
            PolicyHead::PermitWithTrace { .. }
            | PolicyHead::DenyWithTrace { .. }
            | PolicyHead::BadKind
            | PolicyHead::BadField => None,
        }
    }

    // The same of an arm of a list. A Permit and a plain Grant, the commonest arms of a wide list, are counted here, with no call of `visit_policy`. It is
    // compiled into the list rules, so that a counted arm isn't laid in memory.
    #[cycle(policy_visits)]
    #[inline(always)]
    fn visit_arm(&self, at: usize, depth: usize, nodes: u32) -> Option<Visit>
        ensures { Counts words_t (holds_p (table_of self.now.facts.now)) (nodes_p (table_of self.now.facts.now)) at self.now.allowance nodes (read_policy false depth (drop at self.now.words.now)) result }
    {
        if self.words.len() <= at || depth == 0 || self.allowance <= nodes {
            return None;
        }
        if self.words[at] / policy_model::HALF == policy_model::PERMIT {
            return self.counted(nodes + 1, true, at + 1);
        }
        if policy_model::plain_grant(self.words, at) {
            return self.visit_plain(at, nodes);
        }
        self.visit_policy(at, depth, nodes)
    }

    // The `arms` from `at` of an All, up to its deny (`stop` false), or an OrElse's two, up to a permit (`stop` true).
    // Beside `visit_conditions`: one rule for both would take a trait of the two cycles, with a member for each reading, size, value and count, for a loop of
    // nine lines. It is compiled into `visit_policy`, so that a level takes one call.
    #[cycle(policy_visits)]
    #[inline(always)]
    fn visit_policies(
        &self,
        at: usize,
        depth: usize,
        arms: u32,
        stop: bool,
        nodes: u32,
    ) -> Option<Visit>
        ensures { Counts words_ts (holds_ps stop (table_of self.now.facts.now)) (nodes_ps stop (table_of self.now.facts.now)) at self.now.allowance nodes (many pnil pcons (read_policy false depth) arms (drop at self.now.words.now)) result }
    {
        let mut next = at;
        let mut count = nodes;
        for left in (0..arms).rev() {
            let arm = self.visit_arm(next, depth, count)?;
            next = arm.next;
            count = arm.nodes;
            if arm.holds == stop {
                let end = policy_model::skip_policies(self.words, next, left);
                return self.counted(count, stop, end);
            }
        }
        self.counted(count, !stop, next)
    }

    // The `arms` from `at` of an Any, each of which is visited. So it stands beside `visit_policies`: no arm ends the loop, and their values are joined.
    #[cycle(policy_visits)]
    fn visit_any(&self, at: usize, depth: usize, arms: u32, nodes: u32) -> Option<Visit>
        ensures { Counts words_ts (holds_any (table_of self.now.facts.now) false) (nodes_any (table_of self.now.facts.now)) at self.now.allowance nodes (many pnil pcons (read_policy false depth) arms (drop at self.now.words.now)) result }
    {
        let mut next = at;
        let mut count = nodes;
        let mut permits = false;
        for _ in 0..arms {
            let arm = self.visit_arm(next, depth, count)?;
            next = arm.next;
            count = arm.nodes;
            permits |= arm.holds;
        }
        self.counted(count, permits, next)
    }
}

// How many nodes direct evaluation of the sheet visits under a known table, if the allowance holds them.
pub fn visits(sheet: &[u32], facts: &[u8], allowance: u32) -> Option<u32>
    requires { length sheet.now ≤ record_words }
    ensures { CountsSheet (table_of facts.now) sheet.now allowance result }
{
    let walk = Walk {
        words: sheet,
        facts,
        allowance,
    };
    Some(walk.visit_policy(0, policy_model::LEVELS, 0)?.nodes)
}
