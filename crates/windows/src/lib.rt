// Retention windows: the facts that a list names, set in a table by the age of a reading.
#![tactic(auto)]

ghost use Rattle.std.specs.Prelude.{◌≡◌, Bool, length, map};
ghost use Rattle.std.proofs.Math.Option.{none};
ghost use Rattle.model.specs.Facts.{table_fields};
ghost use Rattle.model.specs.Windows.{Window as Meant, bad_list, windows_fault, windowed_table, apply_windows};
ghost use Rattle.facts.specs.Answers.{presence_number};
ghost use Rattle.answer.specs.Answers.{Answered};
ghost use Rattle.refusal.specs.Numbers.{refused};
ghost use Rattle.calendar.specs.Answers.{date_of};
ghost use Rattle.windows.specs.declared.Window.{Window as Listed};
ghost use Rattle.windows.specs.Setting.{Reads, window_in, window_meant, right_in, all_right, counted_in, or_above, field_of, held_by, held_as, fields_by, set_where, marked};

use answer::Answer;
use calendar::Date;
use facts::{Presence, TableKind};
use refusal::Refusal;

// A window's first word: its verdict above its unit, and a fact below twenty zero bits, a field of ABOVE_ZERO values.
const VERDICT_BIT: u32 = 2147483648;

const UNIT_BIT: u32 = 1073741824;

const ABOVE_ZERO: u32 = 1048576;

// Its second word: the first age above the last.
const FIRST_AGE: u32 = 65536;

// At most 32 windows.
const LIST_WORDS: usize = 64;

// What a window makes its fact: Present if it is open, Absent if it is closed. No window makes it Unknown, so this is no `Presence`.
#[derive(Clone, Copy, PartialEq, Eq)]
enum Verdict {
    Closed,
    Open,
}

impl Verdict {
    fn presence(self) -> Presence
        ensures { presence_number result ≡ field_of self }
    {
        match self {
            Verdict::Closed => Presence::Absent,
            Verdict::Open => Presence::Present,
        }
    }
}

// What a window's ages are counted in: days, or completed years.
#[derive(Clone, Copy)]
enum Unit {
    Days,
    Years,
}

// A window of the list: while an age of its unit lies between two ages, both included, its fact is as its verdict says.
#[derive(Clone, Copy)]
struct Window {
    verdict: Verdict,
    unit: Unit,
    zero: u32,
    fact: u32,
    first: u32,
    last: u32,
}

// The age of a reading in either unit: none where it is below 0, which lies in no window.
#[derive(Clone, Copy)]
struct Ages {
    days: Option<u32>,
    years: Option<u32>,
}

// A number above every last age.
const ABOVE_AGES: u64 = 1 << 32;

// An age as it is compared: none is above every last one.
fn or_above(age: Option<u32>) -> u64
    ensures { result ≡ or_above age }
{
    match age {
        Some(age) => u64::from(age),
        None => ABOVE_AGES,
    }
}

impl Ages {
    // The one that is counted in the unit, as it is compared. Which ages there are is so asked once for all windows.
    fn counted_in(self, unit: Unit) -> u64
        ensures { result ≡ or_above (counted_in unit self) }
    {
        match unit {
            Unit::Days => or_above(self.days),
            Unit::Years => or_above(self.years),
        }
    }
}

impl Window {
    // Of its two words: verdict (1), unit (1), zero (20), fact (10); first and last age (16 each). No `From`: two words may be no window.
    fn of(words: [u32; 2]) -> Window
        ensures { Reads words result }
    {
        let [lead, ages] = words;
        let verdict = match lead / VERDICT_BIT {
            0 => Verdict::Closed,
            _ => Verdict::Open,
        };
        let unit = match lead / UNIT_BIT % 2 {
            0 => Unit::Days,
            _ => Unit::Years,
        };
        Window {
            verdict,
            unit,
            zero: lead / policy_model::FACTS % ABOVE_ZERO,
            fact: lead % policy_model::FACTS,
            first: ages / FIRST_AGE,
            last: ages % FIRST_AGE,
        }
    }

    // Whether it holds the age, counted in its own unit.
    #[tactic(auto, using(crate::proofs::Parts::held_number))]
    fn holds(self, ages: Ages) -> bool
        ensures { result ≡ held_by ages (window_meant self) }
    {
        let age = ages.counted_in(self.unit);
        u64::from(self.first) <= age && age <= u64::from(self.last)
    }

    // Whether it says the verdict: only while it holds the age.
    fn says(self, verdict: Verdict, ages: Ages) -> bool
        ensures { result ≡ held_as verdict ages (window_meant self) }
    {
        self.verdict == verdict && self.holds(ages)
    }
}

// Whether the zero field is 0 and the first age isn't above the last.
fn is_right(words: [u32; 2]) -> bool
    ensures { result ≡ right_in words }
{
    let window = Window::of(words);
    window.zero == 0 && window.first <= window.last
}

// Whether every window is right.
fn all_right(windows: &[[u32; 2]]) -> bool
    ensures { result ≡ all_right windows.now }
{
    windows.iter().all(|words| is_right(*words))
}

// Whether a list is turned back.
fn is_bad_list(list: &[u32]) -> bool
    ensures { result ≡ bad_list list.now }
{
    let (windows, odd) = list.as_chunks::<2>();
    if list.len() > LIST_WORDS || !odd.is_empty() {
        return true;
    }
    !all_right(windows)
}

// Sets every fact of which some window is such a one to a value. Compiled into its callers, each with its own value and test.
#[inline(always)]
fn set_each<F: Fn(Window) -> bool>(
    windows: &[[u32; 2]],
    value: Presence,
    such: F,
    out: &mut [u8; facts::TABLE_BYTES],
)
    requires { (w : Listed) → F.pre such w }
    ensures { (f : Meant → Bool) → ((w : Listed) (r : Bool) → F.post such w r → r ≡ f (window_meant w)) → table_fields out.new ≡ fields_by (set_where f (presence_number value) (map window_in windows.now)) 0 (table_fields out.old) }
{
    for words in windows.iter().rev() {
        let window = Window::of(*words);
        if such(window) {
            facts::set_presence(out, window.fact, value);
        }
    }
}

// Sets every fact that a window names to one value.
fn mark(windows: &[[u32; 2]], value: Presence, out: &mut [u8; facts::TABLE_BYTES])
    ensures { table_fields out.new ≡ fields_by (marked (presence_number value) (map window_in windows.now)) 0 (table_fields out.old) }
{
    set_each(windows, value, |_| true, out);
}

// Sets every fact of which some window says the verdict to what that makes it.
#[inline(always)]
fn decide(windows: &[[u32; 2]], verdict: Verdict, ages: Ages, out: &mut [u8; facts::TABLE_BYTES])
    ensures { table_fields out.new ≡ fields_by (set_where (held_as verdict ages) (field_of verdict) (map window_in windows.now)) 0 (table_fields out.old) }
{
    set_each(
        windows,
        verdict.presence(),
        |window| window.says(verdict, ages),
        out,
    );
}

// Why a call is turned back: for a date, the list or the table. This and `write` take one by one what `apply_windows` is given: a struct would be made for
// these two calls alone.
fn check(list: &[u32], reading: Date, today: Date, facts: &[u8]) -> Result<(), Refusal>
    ensures { refused result ≡ windows_fault list.now (date_of reading) (date_of today) facts.now }
{
    if reading.is_bad() || today.is_bad() {
        return Err(Refusal::Date);
    }
    if is_bad_list(list) || facts.len() != facts::TABLE_BYTES {
        return Err(Refusal::Windows);
    }
    facts::check_table(facts, TableKind::Partial)
}

// Copies the table, and sets the facts that the list names: to Unknown if either date is. Else all of them are Absent first, then those Present of which an
// open window holds the age, and last those Absent of which a closed one does, which goes before open ones.
fn write(list: &[u32], reading: Date, today: Date, facts: &[u8], out: &mut [u8; facts::TABLE_BYTES])
    requires { windows_fault list.now (date_of reading) (date_of today) facts.now ≡ none }
    ensures { out.new ≡ windowed_table list.now (date_of reading) (date_of today) facts.now }
{
    out.copy_from_slice(facts);
    let windows = list.as_chunks::<2>().0;
    if reading.is_unknown() || today.is_unknown() {
        mark(windows, Presence::Unknown, out);
        return;
    }
    let ages = Ages {
        days: reading.age_in_days(today),
        years: reading.age_in_years(today),
    };
    mark(windows, Presence::Absent, out);
    decide(windows, Verdict::Open, ages, out);
    decide(windows, Verdict::Closed, ages, out);
}

// Everything is judged before a byte changes.
pub fn apply_windows(
    list: &[u32],
    reading: Date,
    today: Date,
    facts: &[u8],
    out: &mut [u8],
) -> Answer
    ensures { Answered (apply_windows list.now (date_of reading) (date_of today) facts.now (length out.old)) out.old out.new result }
{
    check(list, reading, today, facts)?;
    let Some(table) = out.first_chunk_mut() else {
        return Err(Refusal::Room);
    };
    write(list, reading, today, facts, table);
    Ok(facts::TABLE_BYTES)
}
