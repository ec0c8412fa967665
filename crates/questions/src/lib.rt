// The questions about a record, after gatekeep's ResidualPolicy: whether its tree is a permit or a deny constant, and whether it carries an obligation.
#![tactic(auto)]

ghost use Rattle.std.specs.Prelude.{◌≡◌, ◌||◌, eqb};
ghost use Rattle.model.specs.Policy.{Policy};
ghost use Rattle.model.specs.Record.{tree};
ghost use Rattle.model.specs.Required.{obliges, asked_of};
ghost use Rattle.refusal.specs.Numbers.{by_number};
ghost use Rattle.model.specs.Products.{Outcome, read_record, is_permit_constant, is_deny_constant, carries_obligation};
ghost use Rattle.questions.specs.Nodes.{kind_at, one_of, obligation_at};
ghost use Rattle.questions.specs.Answers.{told_of, Stands, SomeTree, Found};

use refusal::Refusal;

// Where the tree of a record begins, Resolved or Pending.
#[tactic(auto, using(crate::proofs::Records::at_tree, crate::proofs::Records::no_tree))]
fn tree_of(words: &[u32]) -> Result<usize, Refusal>
    ensures { Found words.now (read_record words.now) result }
{
    let head = policy_model::check_record(words, outcome::SETS)?;
    Ok(head.tree)
}

// Whether a kind is one of two. Kinds are numbers, as policy_model says.
fn either(kind: u32, one: u32, other: u32) -> bool
    ensures { result ≡ (eqb kind one || eqb kind other) }
{
    kind == one || kind == other
}

// The kind of the tree's top node.
fn top_kind(words: &[u32], at: usize) -> u32
    requires { SomeTree words.now at }
    ensures { (t : Policy Outcome) → Stands words.now at t → result ≡ kind_at t }
{
    words[at] / policy_model::KIND
}

// Whether the top node of a record's tree is of one of two kinds.
fn top_is(words: &[u32], one: u32, other: u32) -> Result<bool, Refusal>
    ensures { by_number result ≡ told_of (asked_of (read_record words.now) (λ r. one_of one other (tree r))) }
{
    let tree = tree_of(words)?;
    let kind = top_kind(words, tree);
    Ok(either(kind, one, other))
}

// Whether the record's tree is a permit: its top node is a Permit or a PermitWithTrace.
pub fn is_permit_constant(words: &[u32]) -> Result<bool, Refusal>
    ensures { by_number result ≡ told_of (is_permit_constant words.now) }
{
    top_is(
        words,
        policy_model::KIND_PERMIT,
        policy_model::KIND_PERMIT_WITH_TRACE,
    )
}

// Whether the record's tree is a deny: its top node is a Deny or a DenyWithTrace.
pub fn is_deny_constant(words: &[u32]) -> Result<bool, Refusal>
    ensures { by_number result ≡ told_of (is_deny_constant words.now) }
{
    top_is(
        words,
        policy_model::KIND_DENY,
        policy_model::KIND_DENY_WITH_TRACE,
    )
}

// Whether a policy's first word is that of a Grant or a PermitWithTrace with obligations.
#[tactic(auto, unfolding(crate::specs::Nodes::obligation_at))]
fn obligation_at(word: u32) -> bool
    ensures { result ≡ obligation_at word }
{
    let kind = word / policy_model::KIND;
    policy_model::obligations_of(word) != 0
        && either(
            kind,
            policy_model::KIND_GRANT,
            policy_model::KIND_PERMIT_WITH_TRACE,
        )
}

// Looks for an obligation in the tree at `at`, which ends with the words. These were checked before, so its nodes need no level: each is seen as it comes,
// those of conditions too, which have none.
#[tactic(auto, using(crate::proofs::Nodes::walks))]
fn carries(words: &[u32], at: usize) -> bool
    ensures { (t : Policy Outcome) → Stands words.now at t → result ≡ obliges t }
{
    let mut next = at;
    // no `for`, since the nodes have many lengths
    while next < words.len() {
        if obligation_at(words[next]) {
            return true;
        }
        next = next + 1 + policy_model::own_of(words, next);
    }
    false
}

// Whether any Grant or PermitWithTrace of the record's tree has obligations.
pub fn carries_obligation(words: &[u32]) -> Result<bool, Refusal>
    ensures { by_number result ≡ told_of (carries_obligation words.now) }
{
    let tree = tree_of(words)?;
    Ok(carries(words, tree))
}
