// The exported C interface. A slice passes as a pointer and an element count. A call returns one number: that of the refusal times 2^32, or 0
// when it is accepted, and the call's value. Each export is a function of its own, as C has no type for a table or an order.
#![tactic(auto)]

ghost use Rattle.model.specs.Products.{evaluate, required_facts, required_residual_facts, is_permit_constant, is_deny_constant, carries_obligation, partial_evaluate, narrow_residual, complete_residual, evaluate_by, partial_evaluate_by, narrow_residual_by, complete_residual_by, pack_sheet, pack_record, unpack_sheet, unpack_record};
ghost use Rattle.model.specs.Partial.{permits_first, sheet_order};
ghost use Rattle.model.specs.Register.{sheet_in_force};
ghost use Rattle.model.specs.Join.{join_tables};
ghost use Rattle.model.specs.Windows.{apply_windows};
ghost use Rattle.model.specs.Batch.{evaluate_batch};
ghost use Rattle.std.specs.Prelude.{◌≡◌, ℕ, length};
ghost use Rattle.std.proofs.Math.Option.{none, some};
ghost use Rattle.outcome.specs.Carried.{table};
ghost use Rattle.refusal.specs.Numbers.{by_number};
ghost use Rattle.vierskof.specs.Answers.{Requires, Writes, Batches, said, named, dated};
ghost use Rattle.vierskof.specs.Answers.{in_one, itself, none_or, one_bit_of};

use calendar::Date;
use partial_policy::Order;
use refusal::Refusal;

// What an accepted call returns, as one number.
trait Value {
    ghost value: { Self → ℕ };

    fn number(self) -> u64
        ensures { result ≡ value self };
}

// Words or bytes written.
impl Value for usize {
    ghost value = { itself };

    fn number(self) -> u64 {
        self as u64
    }
}

// A count of facts.
impl Value for u32 {
    ghost value = { itself };

    fn number(self) -> u64 {
        self as u64
    }
}

// Yes or no.
impl Value for bool {
    ghost value = { one_bit_of };

    fn number(self) -> u64 {
        u64::from(self)
    }
}

// The number of the sheet in force, if there is one.
impl Value for Option<u32> {
    ghost value = { none_or };

    fn number(self) -> u64 {
        u64::from(self.unwrap_or(register::NO_SHEET))
    }
}

// The number of the refusal and the call's value, as one number.
fn returned<V: Value>(answer: Result<V, Refusal>) -> u64
    ensures { result ≡ in_one V.value (by_number answer) }
{
    match answer {
        Ok(value) => value.number(),
        Err(cause) => cause.high_half(),
    }
}

// Decides a sheet with a known table, and writes the record, which carries the sheet's number.
#[unsafe(no_mangle)]
pub extern "C" fn vierskof_evaluate(
    sheet: &[u32],
    number: u32,
    facts: &[u8],
    out: &mut [u32],
) -> u64
    ensures { Writes (evaluate_by none number sheet.now facts.now (length out.old)) out.old out.new result }
{
    returned(calls::evaluate(sheet, number, facts, out))
}

// Reduces a sheet with a table that may leave facts open, and writes the record, which carries the sheet's number.
#[unsafe(no_mangle)]
pub extern "C" fn vierskof_partial_evaluate(
    sheet: &[u32],
    number: u32,
    facts: &[u8],
    out: &mut [u32],
) -> u64
    ensures { Writes (partial_evaluate_by none permits_first number sheet.now facts.now (length out.old)) out.old out.new result }
{
    returned(calls::partial_evaluate(sheet, number, Order::PermitsFirst, facts, out))
}

// Reduces a sheet, and leaves arms in sheet order.
#[unsafe(no_mangle)]
pub extern "C" fn vierskof_partial_evaluate_in_order(
    sheet: &[u32],
    number: u32,
    facts: &[u8],
    out: &mut [u32],
) -> u64
    ensures { Writes (partial_evaluate_by none sheet_order number sheet.now facts.now (length out.old)) out.old out.new result }
{
    returned(calls::partial_evaluate(sheet, number, Order::SheetOrder, facts, out))
}

// Narrows a record of the sheet that has the number by a table of further facts, and writes the record that results.
#[unsafe(no_mangle)]
pub extern "C" fn vierskof_narrow_residual(
    residual: &[u32],
    number: u32,
    facts: &[u8],
    out: &mut [u32],
) -> u64
    ensures { Writes (narrow_residual_by none permits_first number residual.now facts.now (length out.old)) out.old out.new result }
{
    returned(calls::narrow_residual(residual, number, Order::PermitsFirst, facts, out))
}

// Narrows a record, and leaves arms in sheet order.
#[unsafe(no_mangle)]
pub extern "C" fn vierskof_narrow_residual_in_order(
    residual: &[u32],
    number: u32,
    facts: &[u8],
    out: &mut [u32],
) -> u64
    ensures { Writes (narrow_residual_by none sheet_order number residual.now facts.now (length out.old)) out.old out.new result }
{
    returned(calls::narrow_residual(residual, number, Order::SheetOrder, facts, out))
}

// Completes a record of the sheet that has the number with a known table, and writes the record that results.
#[unsafe(no_mangle)]
pub extern "C" fn vierskof_complete_residual(
    residual: &[u32],
    number: u32,
    facts: &[u8],
    out: &mut [u32],
) -> u64
    ensures { Writes (complete_residual_by none number residual.now facts.now (length out.old)) out.old out.new result }
{
    returned(calls::complete_residual(residual, number, facts, out))
}

// Decides a sheet by an outcome table: 21 before every other cause if it is not accepted.
#[unsafe(no_mangle)]
pub extern "C" fn vierskof_evaluate_by_levels(
    levels: u32,
    outcomes: &[u8],
    sheet: &[u32],
    number: u32,
    facts: &[u8],
    out: &mut [u32],
) -> u64
    ensures { Writes (evaluate (some (table levels outcomes.now)) number sheet.now facts.now (length out.old)) out.old out.new result }
{
    returned(calls::evaluate_by_levels(levels, outcomes, sheet, number, facts, out))
}

// Reduces a sheet by an outcome table: 21 before every other cause if it is not accepted.
#[unsafe(no_mangle)]
pub extern "C" fn vierskof_partial_evaluate_by_levels(
    levels: u32,
    outcomes: &[u8],
    sheet: &[u32],
    number: u32,
    facts: &[u8],
    out: &mut [u32],
) -> u64
    ensures { Writes (partial_evaluate (some (table levels outcomes.now)) permits_first number sheet.now facts.now (length out.old)) out.old out.new result }
{
    returned(calls::partial_evaluate_by_levels(
        levels,
        outcomes,
        sheet,
        number,
        Order::PermitsFirst,
        facts,
        out,
    ))
}

// Reduces a sheet in sheet order by an outcome table: 21 before every other cause if it is not accepted.
#[unsafe(no_mangle)]
pub extern "C" fn vierskof_partial_evaluate_in_order_by_levels(
    levels: u32,
    outcomes: &[u8],
    sheet: &[u32],
    number: u32,
    facts: &[u8],
    out: &mut [u32],
) -> u64
    ensures { Writes (partial_evaluate (some (table levels outcomes.now)) sheet_order number sheet.now facts.now (length out.old)) out.old out.new result }
{
    returned(calls::partial_evaluate_by_levels(
        levels,
        outcomes,
        sheet,
        number,
        Order::SheetOrder,
        facts,
        out,
    ))
}

// Narrows a record by an outcome table: 21 before every other cause if it is not accepted.
#[unsafe(no_mangle)]
pub extern "C" fn vierskof_narrow_residual_by_levels(
    levels: u32,
    outcomes: &[u8],
    residual: &[u32],
    number: u32,
    facts: &[u8],
    out: &mut [u32],
) -> u64
    ensures { Writes (narrow_residual (some (table levels outcomes.now)) permits_first number residual.now facts.now (length out.old)) out.old out.new result }
{
    returned(calls::narrow_residual_by_levels(
        levels,
        outcomes,
        residual,
        number,
        Order::PermitsFirst,
        facts,
        out,
    ))
}

// Narrows a record in sheet order by an outcome table: 21 before every other cause if it is not accepted.
#[unsafe(no_mangle)]
pub extern "C" fn vierskof_narrow_residual_in_order_by_levels(
    levels: u32,
    outcomes: &[u8],
    residual: &[u32],
    number: u32,
    facts: &[u8],
    out: &mut [u32],
) -> u64
    ensures { Writes (narrow_residual (some (table levels outcomes.now)) sheet_order number residual.now facts.now (length out.old)) out.old out.new result }
{
    returned(calls::narrow_residual_by_levels(
        levels,
        outcomes,
        residual,
        number,
        Order::SheetOrder,
        facts,
        out,
    ))
}

// Completes a record by an outcome table: 21 before every other cause if it is not accepted.
#[unsafe(no_mangle)]
pub extern "C" fn vierskof_complete_residual_by_levels(
    levels: u32,
    outcomes: &[u8],
    residual: &[u32],
    number: u32,
    facts: &[u8],
    out: &mut [u32],
) -> u64
    ensures { Writes (complete_residual (some (table levels outcomes.now)) number residual.now facts.now (length out.old)) out.old out.new result }
{
    returned(calls::complete_residual_by_levels(levels, outcomes, residual, number, facts, out))
}

// The facts that a sheet names: their count, and their set in `set`, sixteen numbers, fact 0 the top bit of the first.
#[unsafe(no_mangle)]
pub extern "C" fn vierskof_required_facts(sheet: &[u32], set: &mut [u64]) -> u64
    ensures { Requires (required_facts sheet.now) set.old set.new result }
{
    returned(required::required_facts(sheet, set))
}

// The same of a record's tree.
#[unsafe(no_mangle)]
pub extern "C" fn vierskof_required_residual_facts(residual: &[u32], set: &mut [u64]) -> u64
    ensures { Requires (required_residual_facts residual.now) set.old set.new result }
{
    returned(required::required_residual_facts(residual, set))
}

// Whether a record's tree is a permit: 1 if its top node is 6 or 12.
#[unsafe(no_mangle)]
pub extern "C" fn vierskof_is_permit_constant(residual: &[u32]) -> u64
    ensures { result ≡ said (is_permit_constant residual.now) }
{
    returned(questions::is_permit_constant(residual))
}

// Whether it is a deny: 1 if its top node is 7 or 13.
#[unsafe(no_mangle)]
pub extern "C" fn vierskof_is_deny_constant(residual: &[u32]) -> u64
    ensures { result ≡ said (is_deny_constant residual.now) }
{
    returned(questions::is_deny_constant(residual))
}

// Whether it carries an obligation: 1 if any 8 or 12 in it has obligations.
#[unsafe(no_mangle)]
pub extern "C" fn vierskof_carries_obligation(residual: &[u32]) -> u64
    ensures { result ≡ said (carries_obligation residual.now) }
{
    returned(questions::carries_obligation(residual))
}

// Which sheet of a register is in force for a group on a day, counted from 1900-01-01: its number, or 65,536 for none.
#[unsafe(no_mangle)]
pub extern "C" fn vierskof_sheet_in_force(entries: &[u32], group: u32, day: u32) -> u64
    ensures { result ≡ named (sheet_in_force entries.now group day) }
{
    returned(register::sheet_in_force(entries, group, day))
}

// Joins two tables, and writes the table that results.
#[unsafe(no_mangle)]
pub extern "C" fn vierskof_join_tables(one: &[u8], two: &[u8], out: &mut [u8]) -> u64
    ensures { Writes (join_tables one.now two.now (length out.old)) out.old out.new result }
{
    returned(join::join_tables(one, two, out))
}

// Sets the facts that a list of windows names by the age of a reading: from the date of the reading to today's.
#[unsafe(no_mangle)]
pub extern "C" fn vierskof_apply_windows(
    windows: &[u32],
    year: u32,
    month: u32,
    day: u32,
    today_year: u32,
    today_month: u32,
    today_day: u32,
    facts: &[u8],
    out: &mut [u8],
) -> u64
    ensures { Writes (apply_windows windows.now (dated year month day) (dated today_year today_month today_day) facts.now (length out.old)) out.old out.new result }
{
    let reading = Date { year, month, day };
    let today = Date {
        year: today_year,
        month: today_month,
        day: today_day,
    };
    returned(windows::apply_windows(windows, reading, today, facts, out))
}

// Packs a sheet in the tight form, and writes the bytes.
#[unsafe(no_mangle)]
pub extern "C" fn vierskof_pack_sheet(sheet: &[u32], out: &mut [u8]) -> u64
    ensures { Writes (pack_sheet sheet.now (length out.old)) out.old out.new result }
{
    returned(pack::pack_sheet(sheet, out))
}

// Packs a record.
#[unsafe(no_mangle)]
pub extern "C" fn vierskof_pack_record(residual: &[u32], out: &mut [u8]) -> u64
    ensures { Writes (pack_record residual.now (length out.old)) out.old out.new result }
{
    returned(pack::pack_record(residual, out))
}

// Unpacks a sheet, and writes its words.
#[unsafe(no_mangle)]
pub extern "C" fn vierskof_unpack_sheet(bytes: &[u8], out: &mut [u32]) -> u64
    ensures { Writes (unpack_sheet bytes.now (length out.old)) out.old out.new result }
{
    returned(unpack::unpack_sheet(bytes, out))
}

// Unpacks a record.
#[unsafe(no_mangle)]
pub extern "C" fn vierskof_unpack_record(bytes: &[u8], out: &mut [u32]) -> u64
    ensures { Writes (unpack_record bytes.now (length out.old)) out.old out.new result }
{
    returned(unpack::unpack_record(bytes, out))
}

// Decides a batch of requests by the sheets in force, within an allowance of visited nodes: a reply for each request, and the records one after the other.
#[unsafe(no_mangle)]
pub extern "C" fn vierskof_evaluate_batch(
    entries: &[u32],
    sheets: &[u32],
    requests: &[u32],
    allowance: u32,
    replies: &mut [u64],
    out: &mut [u32],
) -> u64
    ensures { Batches (evaluate_batch none entries.now sheets.now requests.now allowance (length replies.old) (length out.old)) replies.old replies.new out.old out.new result }
{
    returned(batch::evaluate_batch(entries, sheets, requests, allowance, replies, out))
}

// The same by an outcome table, one for the whole batch.
#[unsafe(no_mangle)]
pub extern "C" fn vierskof_evaluate_batch_by_levels(
    levels: u32,
    outcomes: &[u8],
    entries: &[u32],
    sheets: &[u32],
    requests: &[u32],
    allowance: u32,
    replies: &mut [u64],
    out: &mut [u32],
) -> u64
    ensures { Batches (evaluate_batch (some (table levels outcomes.now)) entries.now sheets.now requests.now allowance (length replies.old) (length out.old)) replies.old replies.new out.old out.new result }
{
    returned(batch::evaluate_batch_by_levels(
        levels, outcomes, entries, sheets, requests, allowance, replies, out,
    ))
}
