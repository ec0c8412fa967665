// Conditions, after gatekeep's evaluate.rs: whether a condition is satisfied, with the facts that were consulted listed on the way.
#![tactic(auto)]

ghost use Rattle.std.specs.Prelude.{◌≡◌, false, ◌^◌, ◌<◌, ◌≤◌};
ghost use Rattle.model.specs.Facts.{fact_count, table_of};
ghost use Rattle.model.specs.Writing.{count_bits};
ghost use Rattle.model.specs.Reading.{levels};
ghost use Rattle.policy_model.specs.Heads.{condition_head};
ghost use Rattle.consulted.specs.Listing.{held};
ghost use Rattle.condition.specs.Evaluating.{answer_of, EvaluatesC, EvaluatesHas};
ghost use Rattle.condition.specs.Walking.{list_node, node_of, Settles};

use consulted::Consulted;
use facts::Presence;
use policy_model::ConditionHead;

// What a walk reads: the words, and the table of facts.
#[derive(Clone, Copy)]
pub struct Walk<'a> {
    pub words: &'a [u32],
    pub facts: &'a [u8],
}

// Whether a condition is satisfied, and the position after its words.
#[derive(Drop)]
pub struct ConditionEval {
    pub satisfied: bool,
    pub next: usize,
}

// A node whose arms are still read: a Not, or a list by the value that decides it, which is false for an All and true for an Any, and by how many of its
// arms come after the one that is read. `stop` is no switch: the value of an arm is compared with it.
#[derive(Clone, Copy)]
enum OpenNode {
    Not,
    Arms { stop: bool, left: u16 },
}

// What the first word of a condition is to a walk: a value, a fact to be read, or a node that stays open while its arms are read.
#[derive(Drop)]
enum Node {
    Value(bool),
    Has(u32),
    Open(OpenNode),
}

// A list by the value that decides it. Without arms All and Any are both false.
fn list_node(stop: bool, arms: u32) -> Node
    requires { arms < 2 ^ count_bits }
    ensures { result ≡ list_node stop arms }
{
    if arms == 0 {
        return Node::Value(false);
    }
    let left = (arms - 1) as u16;
    Node::Open(OpenNode::Arms { stop, left })
}

// The node by its word. Of a word that doesn't read nothing is asked.
fn node_of(word: u32) -> Node
    ensures { result ≡ node_of (condition_head word) }
{
    match policy_model::condition_head(word) {
        ConditionHead::Always => Node::Value(true),
        ConditionHead::Never => Node::Value(false),
        ConditionHead::Has(fact) => Node::Has(fact),
        ConditionHead::Not => Node::Open(OpenNode::Not),
        ConditionHead::All(arms) => list_node(false, arms),
        ConditionHead::Any(arms) => list_node(true, arms),
        ConditionHead::BadKind | ConditionHead::BadField => Node::Value(false),
    }
}

// The answer of the open node whose arm before `next` has this value, or none where its next arm is to be read. A Not flips the value. A false arm decides
// an All and a true arm an Any, and the arms after it aren't read.
fn after_arm(words: &[u32], node: &mut OpenNode, value: bool, next: usize) -> Option<ConditionEval>
    ensures { Settles words.now node.old value next node.new result }
{
    match node {
        OpenNode::Not => Some(ConditionEval {
            satisfied: !value,
            next,
        }),
        OpenNode::Arms { stop, left } => {
            if value != *stop && *left != 0 {
                *left -= 1;
                return None;
            }
            Some(ConditionEval {
                satisfied: value,
                next: policy_model::skip_conditions(words, next, *left as u32),
            })
        }
    }
}

// The answer where the words end, or the levels do: no condition reads there, so nothing is asked of it.
fn unsatisfied(next: usize) -> ConditionEval
    ensures { result ≡ answer_of false next }
{
    ConditionEval {
        satisfied: false,
        next,
    }
}

impl<'a> Walk<'a> {
    // Whether a Has is satisfied: on Present. Its fact is consulted: where it is listed already, that changes nothing, and is left out for its time.
    pub fn eval_has(&self, fact: u32, consulted: &mut Consulted<'_>) -> bool
        requires { fact < fact_count }
        ensures { EvaluatesHas (table_of self.now.facts.now) fact (held consulted.old) result (held consulted.new) }
    {
        if !consulted.lists(fact) {
            consulted.consult(fact, Presence::of(self.facts, fact));
        }
        facts::present(self.facts, fact)
    }

    // The condition at `at`, of at most `depth` levels. The first `level` of `above`, an array as there is no heap, are the nodes that are open, the
    // innermost last. `value` is that of the condition that ends at `next`, or none where a condition is still to be read there.
    // One loop in place of a call for each level, which costs more than the level itself. Its turns aren't counted, so it is no `for`: each reads a word,
    // closes a node, or goes on to a node's next arm.
    fn eval_condition(
        &self,
        at: usize,
        depth: usize,
        consulted: &mut Consulted<'_>,
    ) -> ConditionEval
        requires { depth ≤ levels }
        ensures { EvaluatesC (table_of self.now.facts.now) self.now.words.now at depth (held consulted.old) result (held consulted.new) }
    {
        let mut above = [OpenNode::Not; policy_model::LEVELS];
        let mut level = 0;
        let mut value: Option<bool> = None;
        let mut next = at;
        loop {
            match value {
                Some(satisfied) => {
                    if level == 0 {
                        return ConditionEval { satisfied, next };
                    }
                    let inner = level - 1;
                    match after_arm(self.words, &mut above[inner], satisfied, next) {
                        Some(node) => {
                            value = Some(node.satisfied);
                            next = node.next;
                            level = inner;
                        }
                        None => value = None,
                    }
                }
                None => {
                    if self.words.len() <= next || depth <= level {
                        return unsatisfied(next);
                    }
                    match node_of(self.words[next]) {
                        Node::Value(of) => value = Some(of),
                        Node::Has(fact) => value = Some(self.eval_has(fact, consulted)),
                        Node::Open(node) => {
                            above[level] = node;
                            level += 1;
                        }
                    }
                    next += 1;
                }
            }
        }
    }

    // The same of a grant's condition. Most are a Has, which is seen here, so that no walk is begun for it.
    pub fn eval_arm(&self, at: usize, depth: usize, consulted: &mut Consulted<'_>) -> ConditionEval
        requires { depth ≤ levels }
        ensures { EvaluatesC (table_of self.now.facts.now) self.now.words.now at depth (held consulted.old) result (held consulted.new) }
    {
        if self.words.len() <= at {
            return unsatisfied(at);
        }
        let word = self.words[at];
        if word / policy_model::FACTS == policy_model::HAS {
            return ConditionEval {
                satisfied: self.eval_has(word % policy_model::FACTS, consulted),
                next: at + 1,
            };
        }
        self.eval_condition(at, depth, consulted)
    }
}
