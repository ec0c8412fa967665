// Deciding a tree with a known table, after the facts that were consulted before, after gatekeep's evaluate.rs and partial.rs (`complete_residual`):
// of a Pending record its entries; of a sheet none.
#![tactic(auto)]

ghost use Rattle.std.specs.Prelude.{◌≤◌, length};
ghost use Rattle.outcome.specs.Carried.{carried};
ghost use Rattle.model.specs.Facts.{fact_count, table_of};
ghost use Rattle.consulted.specs.Listing.{held};
ghost use Rattle.answer.specs.Answers.{Makes};
ghost use Rattle.completion.specs.Answers.{LoadsConsulted, InUse, completed_after};
ghost use Rattle.completion.specs.Room.{RoomToWalk};

use answer::Answer;
use consulted::Consulted;
use evaluate::Evaluation;
use policy_model::{LEVELS, RECORD_WORDS, SHEET_WORDS};

// Lists the `prior` entries of a record, once each, the first one kept. It reads them as `contradiction::contradicted` does, which ends at the first that
// contradicts. What the two loops share is how an entry is taken apart: a walk that is lent what to do with each entry would be longer than both.
pub fn load_consulted(words: &[u32], prior: usize, consulted: &mut Consulted<'_>)
    ensures { LoadsConsulted words.now prior (held consulted.old) (held consulted.new) }
{
    for i in 0..prior {
        // the words end before their entries do
        if words.len() <= 1 + i / 2 {
            return;
        }
        let field = packing::unpack_entry(words, 1, i) as u32;
        consulted.consult(field % policy_model::FACTS, facts::entry_presence(field));
    }
}

// The entries in use. No walk leaves more than it was lent, nor more than there are facts, but of words that don't read none says so. An invariant of
// `Consulted` would say it of all, and would ask of the callers of each walk what none asks now.
pub fn in_use<'a>(consulted: &'a Consulted<'_>) -> &'a [u16]
    ensures few { length result.now ≤ fact_count }
    ensures listed { InUse (held consulted.now) result.now }
{
    let most = consulted.entries.len().min(ENTRIES);
    let length = consulted.length.min(most);
    &consulted.entries[..length]
}

// A consulted list has each fact once, and beside it stands the set of those that it has.
pub const ENTRIES: usize = policy_model::FACTS as usize;

pub const SEEN: usize = fact_set::NUMBERS;

// How many words are few, and short: the lists that are lent for them are short as well, since to clear long ones would take longer than to decide. They have
// two facts for a word at most.
pub const FEW: usize = 7;

pub const FEW_FACTS: usize = 2 * FEW;

pub const SHORT: usize = 64;

pub const SHORT_FACTS: usize = 2 * SHORT;

// United obligations take room for each level of a tree and for the arm below it. A tree of few words has no more levels than words.
pub const UNITED: usize = decision::OBLIGATION_ROOM * (LEVELS + 1);

pub const UNITED_FEW: usize = decision::OBLIGATION_ROOM * (FEW + 1);

// Decides the policy at `tree` in words that were checked, of at most `DEPTH` levels, after the `prior` entries. `LISTED` facts may be consulted, `BYTES`
// take united obligations, and `NAMED` facts the clause that decides. Every page of its stack is touched when it is called, so it keeps a frame of its own.
#[inline(never)]
fn complete_in<const DEPTH: usize, const LISTED: usize, const BYTES: usize, const NAMED: usize>(
    evaluation: &Evaluation<'_>,
    prior: usize,
    tree: usize,
    out: &mut [u32],
) -> Answer
    requires { RoomToWalk (length evaluation.now.walk.words.now) DEPTH LISTED BYTES NAMED }
    ensures { Makes (completed_after (carried evaluation.now.outcomes) (table_of evaluation.now.walk.facts.now)) evaluation.now.walk.words.now prior tree out.old out.new result }
{
    let mut entries = [0u16; LISTED];
    let mut seen = [0u64; SEEN];
    let mut buf = [0u8; BYTES];
    let mut named = [0u16; NAMED];
    let mut consulted = Consulted {
        entries: &mut entries,
        seen: &mut seen,
        length: 0,
    };
    load_consulted(evaluation.walk.words, prior, &mut consulted);
    let eval = evaluation.eval_policy(tree, DEPTH, &mut consulted, &mut buf);
    answer::put_record(
        &evaluation.walk,
        eval.decision,
        in_use(&consulted),
        &buf,
        &mut named,
        out,
    )
}

// The same with as much room as its words take.
pub fn complete(evaluation: &Evaluation<'_>, prior: usize, tree: usize, out: &mut [u32]) -> Answer
    ensures { Makes (completed_after (carried evaluation.now.outcomes) (table_of evaluation.now.walk.facts.now)) evaluation.now.walk.words.now prior tree out.old out.new result }
{
    match evaluation.walk.words.len() {
        0..=FEW => complete_in::<FEW, FEW_FACTS, UNITED_FEW, FEW_FACTS>(
            evaluation, prior, tree, out,
        ),
        0..=SHORT => complete_in::<LEVELS, SHORT_FACTS, UNITED, SHORT_FACTS>(
            evaluation, prior, tree, out,
        ),
        0..=SHEET_WORDS => complete_in::<LEVELS, ENTRIES, UNITED, SHEET_WORDS>(
            evaluation, prior, tree, out,
        ),
        _ => complete_in::<LEVELS, ENTRIES, UNITED, RECORD_WORDS>(evaluation, prior, tree, out),
    }
}
