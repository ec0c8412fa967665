// The register of sheets: which sheet is in force for a group on a day. Request 5.
#![tactic(auto)]

ghost use Rattle.std.specs.Prelude.{◌≡◌, ◌+◌, ◌<◌, ◌≤◌, length, drop};
ghost use Rattle.model.specs.Register.{register_words, entry_of, entries_of, same_sheet, is_among, faultless, is_register};
ghost use Rattle.model.specs.Register.{qualifies, supersedes, later, in_force, sheet_in_force};
ghost use Rattle.register.specs.Answers.{entry_meant, entry_at, latest_of, in_force_of};

use refusal::Refusal;

// A register has at most this many words.
const REGISTER_WORDS: usize = 512;

// An entry's first word, from its low end: the sheet number, the zero field, which has this many values, the withdrawn bit, the group.
const ABOVE_NUMBER: u32 = 65536;

const ZEROS: u32 = 128;

const ABOVE_ZERO: u32 = 8388608;

const ABOVE_WITHDRAWN: u32 = 16777216;

// What stands for none where a sheet's number is asked for: the number after the last that a sheet can have. In code none is `None`; the C interface has a
// number for it.
pub const NO_SHEET: u32 = ABOVE_NUMBER;

// An entry of the register.
#[derive(Clone, Copy)]
pub struct Entry {
    pub group: u32,
    pub withdrawn: bool,
    pub zero: u32,
    pub number: u32,
    pub day: u32,
}

impl Entry {
    // Of its two words: group (8), withdrawn (1), zero (7), sheet number (16); effective day (32). No `From`: two words may be no entry.
    fn of(lead: u32, day: u32) -> Entry
        ensures { entry_meant result ≡ entry_of lead day }
    {
        Entry {
            group: lead / ABOVE_WITHDRAWN,
            withdrawn: lead / ABOVE_ZERO % 2 == 1,
            zero: lead / ABOVE_NUMBER % ZEROS,
            number: lead % ABOVE_NUMBER,
            day,
        }
    }

    // Of the two words at `at`.
    fn at(entries: &[u32], at: usize) -> Entry
        requires { at + 1 < length entries.now }
        ensures { entry_meant result ≡ entry_at entries.now at }
    {
        Entry::of(entries[at], entries[at + 1])
    }

    // Whether both have one group and number.
    fn same_sheet(self, other: Entry) -> bool
        ensures { result ≡ same_sheet (entry_meant self) (entry_meant other) }
    {
        (self.group, self.number) == (other.group, other.number)
    }

    // Whether it is of the group, not withdrawn, and effective by that day.
    fn qualifies(self, group: u32, day: u32) -> bool
        ensures { result ≡ qualifies group day (entry_meant self) }
    {
        self.group == group && !self.withdrawn && self.day <= day
    }

    // Whether it is effective after the other, or on the same day with a greater number.
    fn supersedes(self, other: Entry) -> bool
        ensures { result ≡ supersedes (entry_meant self) (entry_meant other) }
    {
        (other.day, other.number) < (self.day, self.number)
    }
}

// Whether an entry from `from` on has the group and number of this one. The loop has no way out before its end, so it is compiled to work on many entries at a
// time; over pairs, in place of words, the first words of those are gathered one by one, which takes a register of 256 entries 1.4 times as long.
fn repeated(entry: Entry, entries: &[u32], from: usize) -> bool
    requires { from ≤ length entries.now }
    ensures { result ≡ is_among (entry_meant entry) (entries_of (drop from entries.now)) }
{
    let mut met = false;
    let mut at = from;
    while at + 1 < entries.len() {
        met |= Entry::at(entries, at).same_sheet(entry);
        at += 2;
    }
    met
}

// Whether every entry's zero field is 0 and no group and number stands twice.
fn entries_faultless(entries: &[u32]) -> bool
    ensures { result ≡ faultless (entries_of entries.now) }
{
    let mut next = 0;
    // over words, as `repeated` goes
    while next + 1 < entries.len() {
        let entry = Entry::at(entries, next);
        if entry.zero != 0 {
            return false;
        }
        next += 2;
        if repeated(entry, entries, next) {
            return false;
        }
    }
    true
}

// Whether the words are a register.
pub fn is_register(entries: &[u32]) -> bool
    ensures { result ≡ is_register entries.now }
{
    if entries.len() % 2 != 0 {
        return false;
    }
    if entries.len() > REGISTER_WORDS {
        return false;
    }
    entries_faultless(entries)
}

// The later of the entry in force so far, if there is one, and another that qualifies.
fn later(best: Option<Entry>, entry: Entry) -> Option<Entry>
    ensures { latest_of result ≡ later (latest_of best) (entry_meant entry) }
{
    match best {
        Some(so_far) if !entry.supersedes(so_far) => Some(so_far),
        _ => Some(entry),
    }
}

// The entry in force for the group on the day, if there is one.
pub fn in_force(entries: &[u32], group: u32, day: u32) -> Option<Entry>
    requires { length entries.now ≤ register_words }
    ensures { latest_of result ≡ in_force group day (entries_of entries.now) }
{
    let mut best = None;
    for words in entries.as_chunks::<2>().0 {
        let entry = Entry::of(words[0], words[1]);
        if entry.qualifies(group, day) {
            best = later(best, entry);
        }
    }
    best
}

// The sheet in force for the group on the day, if there is one. Words that are no register are refused before any search.
pub fn sheet_in_force(entries: &[u32], group: u32, day: u32) -> Result<Option<u32>, Refusal>
    ensures { in_force_of result ≡ sheet_in_force entries.now group day }
{
    if !is_register(entries) {
        return Err(Refusal::Register);
    }
    Ok(in_force(entries, group, day).map(|entry| entry.number))
}
