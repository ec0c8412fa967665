// Reducing a tree with a table that leaves facts open, after the facts that were consulted before, after gatekeep's partial.rs (`partial_evaluate`).
// What is left of the tree is laid into scratch first, so that the record's length is known before a word of the output changes.
#![tactic(auto)]

ghost use Rattle.std.specs.Prelude.{◌≤◌, length};
ghost use Rattle.outcome.specs.Carried.{carried};
ghost use Rattle.model.specs.Facts.{fact_count, table_of};
ghost use Rattle.sizes.specs.Laid.{too_many};
ghost use Rattle.answer.specs.Answers.{Makes};
ghost use Rattle.partial_policy.specs.Reducing.{order_of};
ghost use Rattle.completion.specs.Room.{RoomToWalk};
ghost use Rattle.partial.specs.Answers.{PutPending, reduced_after};
ghost use Rattle.partial.specs.Room.{RoomToLeave};

use answer::Answer;
use completion::{ENTRIES, FEW, FEW_FACTS, SEEN, SHORT, SHORT_FACTS, UNITED, UNITED_FEW};
use consulted::Consulted;
use partial_list::Reduced;
use partial_policy::Reduction;
use policy_model::{LEVELS, RECORD_WORDS, Status};
use refusal::Refusal;

// Writes the Pending record of the tree that is laid in the first `size` words of `tree`, and the consulted entries, if there is room for it.
fn put_pending(entries: &[u16], tree: &[u32], size: usize, out: &mut [u32]) -> Answer
    requires { (length entries.now ≤ fact_count) × (size ≤ too_many) }
    ensures { PutPending entries.now tree.now size out.old out.new result }
{
    let total = 1 + policy_model::entry_words(entries.len() as u32) + size;
    if total > sizes::LIMIT {
        return Err(Refusal::Room);
    }
    if out.len() < total {
        return Err(Refusal::Room);
    }
    // not of a tree that was laid, since its scratch has room for it
    let Some(laid) = tree.get(..size) else {
        return Err(Refusal::Room);
    };
    let behind = record::write_front(Status::Pending, entries, out);
    out[behind..total].copy_from_slice(laid);
    Ok(total)
}

// Reduces the policy at `at` in words that were checked, of at most `DEPTH` levels, after the `prior` entries, and writes the record. The lists that are
// left are in sheet order, or have their permits first. `LISTED` facts may be consulted, `BYTES` take united obligations, `NAMED` facts one clause, and `LEFT`
// words the nodes that lists keep, and what is left. Every page of its stack, 164 KiB at most, is touched when it is called, so it keeps a frame of its own.
#[inline(never)]
fn reduce_in<
    const DEPTH: usize,
    const LISTED: usize,
    const BYTES: usize,
    const NAMED: usize,
    const LEFT: usize,
>(reduction: &Reduction<'_>, prior: usize, at: usize, out: &mut [u32]) -> Answer
    requires { RoomToWalk (length reduction.now.evaluation.walk.words.now) DEPTH LISTED BYTES NAMED × RoomToLeave (length reduction.now.evaluation.walk.words.now) LEFT }
    ensures { Makes (reduced_after (carried reduction.now.evaluation.outcomes) (order_of reduction.now.order) (table_of reduction.now.evaluation.walk.facts.now)) reduction.now.evaluation.walk.words.now prior at out.old out.new result }
{
    let consulted = &mut Consulted {
        entries: &mut [0u16; LISTED],
        seen: &mut [0u64; SEEN],
        length: 0,
    };
    let buf = &mut [0u8; BYTES];
    let named = &mut [0u16; NAMED];
    let front = &mut [0u32; LEFT];
    let tree = &mut [0u32; LEFT];
    let walk = &reduction.evaluation.walk;
    completion::load_consulted(walk.words, prior, consulted);
    let reduced = reduction.reduce_policy(at, DEPTH, consulted, buf, named, front, tree);
    let listed = completion::in_use(consulted);
    match reduced.to {
        Reduced::Pending(size) => put_pending(listed, tree, size, out),
        Reduced::Resolved(decision) => {
            answer::put_record(walk, decision, listed, buf, named, out)
        }
    }
}

// What is left takes at most three times the words.
const FEW_LEFT: usize = 3 * FEW;

const SHORT_LEFT: usize = 3 * SHORT;

// Of so many words most scratch would not be used.
const MIDDLING: usize = 1024;

const MIDDLING_FACTS: usize = 2 * MIDDLING;

const MIDDLING_LEFT: usize = 3 * MIDDLING;

// The same with as much room as its words take.
pub fn reduce(reduction: &Reduction<'_>, prior: usize, at: usize, out: &mut [u32]) -> Answer
    ensures { Makes (reduced_after (carried reduction.now.evaluation.outcomes) (order_of reduction.now.order) (table_of reduction.now.evaluation.walk.facts.now)) reduction.now.evaluation.walk.words.now prior at out.old out.new result }
{
    match reduction.evaluation.walk.words.len() {
        0..=FEW => reduce_in::<FEW, FEW_FACTS, UNITED_FEW, FEW_FACTS, FEW_LEFT>(
            reduction, prior, at, out,
        ),
        0..=SHORT => reduce_in::<LEVELS, SHORT_FACTS, UNITED, SHORT_FACTS, SHORT_LEFT>(
            reduction, prior, at, out,
        ),
        0..=MIDDLING => reduce_in::<LEVELS, ENTRIES, UNITED, MIDDLING_FACTS, MIDDLING_LEFT>(
            reduction, prior, at, out,
        ),
        _ => reduce_in::<LEVELS, ENTRIES, UNITED, RECORD_WORDS, RECORD_WORDS>(
            reduction, prior, at, out,
        ),
    }
}
