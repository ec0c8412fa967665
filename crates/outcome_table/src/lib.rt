// Which outcome tables are accepted (request 14). Each law is tried on every pair or triple of levels.
#![tactic(auto)]

ghost use Rattle.std.specs.Prelude.{◌≡◌, ◌&&◌, true, false, MatchResult};
ghost use Rattle.model.specs.Levels as model;
ghost use Rattle.outcome.specs.Carried.{table, table_of, operation_of};

use outcome::{Operation, OutcomeTable};
use refusal::Refusal;

// A table has at most so many levels.
const MOST_LEVELS: u32 = 16;

// Whether every byte is a level.
fn closed(table: OutcomeTable<'_>) -> bool
    ensures { result ≡ model.closed (table_of table.entry) }
{
    table
        .bytes
        .iter()
        .all(|level| (*level as u16) < table.levels)
}

// Whether an operation commutes on two levels.
fn commutes(table: OutcomeTable<'_>, op: Operation, a: u16, b: u16) -> bool
    ensures { result ≡ model.commutes (operation_of op (table_of table.entry)) a b }
{
    table.of(op, a, b) == table.of(op, b, a)
}

// Whether an operation absorbs another on two levels.
fn absorbs(table: OutcomeTable<'_>, op: Operation, other: Operation, a: u16, b: u16) -> bool
    ensures { result ≡ model.absorbs (operation_of op (table_of table.entry)) (operation_of other (table_of table.entry)) a b }
{
    table.of(op, a, table.of(other, a, b)) == a
}

// Whether an operation associates on three levels.
fn associate(table: OutcomeTable<'_>, op: Operation, a: u16, b: u16, c: u16) -> bool
    ensures { result ≡ model.associate (operation_of op (table_of table.entry)) a b c }
{
    table.of(op, table.of(op, a, b), c) == table.of(op, a, table.of(op, b, c))
}

// Whether an operation associates on two levels and any third.
fn associates(table: OutcomeTable<'_>, op: Operation, a: u16, b: u16) -> bool
    ensures { result ≡ model.associates table.entry.levels (operation_of op (table_of table.entry)) a b }
{
    (0..table.levels).all(|c| associate(table, op, a, b, c))
}

// Whether both operations are lawful on two levels: they commute, absorb each other, and associate.
fn lawful_pair(table: OutcomeTable<'_>, a: u16, b: u16) -> bool
    ensures { result ≡ model.lawful_pair (table_of table.entry) a b }
{
    commutes(table, Operation::Meet, a, b)
        && commutes(table, Operation::Join, a, b)
        && absorbs(table, Operation::Meet, Operation::Join, a, b)
        && absorbs(table, Operation::Join, Operation::Meet, a, b)
        && associates(table, Operation::Meet, a, b)
        && associates(table, Operation::Join, a, b)
}

// Whether a level is lawful with every other.
fn lawful_row(table: OutcomeTable<'_>, a: u16) -> bool
    ensures { result ≡ model.every_below table.entry.levels (model.lawful_pair (table_of table.entry) a) }
{
    (0..table.levels).all(|b| lawful_pair(table, a, b))
}

// Whether the bytes are levels, and every two levels lawful.
fn lawful(table: OutcomeTable<'_>) -> bool
    ensures { result ≡ (model.closed (table_of table.entry) && model.pairwise table.entry.levels (model.lawful_pair (table_of table.entry))) }
{
    closed(table) && (0..table.levels).all(|a| lawful_row(table, a))
}

// A table, if it is accepted: the count, the length, the bytes, the laws.
pub fn accepted(levels: u32, bytes: &[u8]) -> Result<OutcomeTable<'_>, Refusal>
    ensures { MatchResult result
        (λ t. (table_of t ≡ table levels bytes.now) × (model.accepts (table levels bytes.now) ≡ true))
        (λ e. (e ≡ Refusal.OutcomeTable) × (model.accepts (table levels bytes.now) ≡ false)) }
{
    if levels == 0 || levels > MOST_LEVELS || bytes.len() != 2 * (levels * levels) as usize {
        return Err(Refusal::OutcomeTable);
    }
    let table = OutcomeTable {
        levels: levels as u16,
        bytes,
    };
    if lawful(table) {
        Ok(table)
    } else {
        Err(Refusal::OutcomeTable)
    }
}
