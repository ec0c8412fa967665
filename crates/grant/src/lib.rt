// A grant, after gatekeep's `GrantRef`: the lent words and the place of the grant's first word. Its methods take it apart and leave the work to
// functions on the words and the place, the form that document 01 asks for. The functions at the end are for callers that have no `GrantRef`.
#![tactic(auto)]

ghost use Rattle.std.specs.Prelude.{◌≡◌};
ghost use Rattle.grant.specs.Fields.{outcome_at, before_condition_at};

// The levels that a grant leaves to its condition.
pub const CONDITION_LEVELS: usize = policy_model::LEVELS - 1;

#[derive(Drop)]
struct GrantRef<'a> {
    words: &'a [u32],
    at: usize,
}

// The outcome, the last 16 bits of the first word.
fn outcome_at(words: &[u32], at: usize) -> u32
    ensures field { result ≡ outcome_at words.now at }
{
    policy_model::outcome_of(policy_model::word_at(words, at)) as u32
}

// How many words stand before the condition: the first two, and those of the obligations.
fn before_condition_at(words: &[u32], at: usize) -> u32
    ensures words { result ≡ before_condition_at words.now at }
{
    let obligations = policy_model::obligations_of(policy_model::word_at(words, at));
    2 + policy_model::obligation_words(obligations) as u32
}

impl<'a> GrantRef<'a> {
    fn new(words: &'a [u32], at: usize) -> GrantRef<'a>
        ensures { (result.words ≡ words.entry) × (result.at ≡ at) }
    {
        GrantRef { words, at }
    }

    fn outcome(self) -> u32
        ensures { result ≡ outcome_at self.entry.words.now self.entry.at }
    {
        outcome_at(self.words, self.at)
    }

    fn before_condition(self) -> u32
        ensures { result ≡ before_condition_at self.entry.words.now self.entry.at }
    {
        before_condition_at(self.words, self.at)
    }
}

pub fn outcome_in(words: &[u32], at: usize) -> u32
    ensures { result ≡ outcome_at words.now at }
{
    GrantRef::new(words, at).outcome()
}

pub fn before_condition_in(words: &[u32], at: usize) -> u32
    ensures { result ≡ before_condition_at words.now at }
{
    GrantRef::new(words, at).before_condition()
}
