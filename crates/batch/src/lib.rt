// The release desk's batch: each request is decided by the sheet in force, out of those handed over, within an allowance of visited nodes, and the records
// follow one another in one output. Request 10.
#![tactic(auto)]

ghost use Rattle.std.specs.Prelude.{◌≡◌, true, List, ◌*◌, ◌^◌, ◌≤◌, ◌<◌, take, length as list_length, Ok};
ghost use Rattle.std.proofs.Math.Option.{none, some};
ghost use Rattle.model.specs.Writing.{sheet_bits};
ghost use Rattle.model.specs.Reading.{record_words};
ghost use Rattle.model.specs.Register.{register_words, entries_of};
ghost use Rattle.model.specs.Levels.{outcomes_of};
ghost use Rattle.model.specs.Batch.{table_words, table_in, request_of, requests_of, request_count, Handed, handed_over, is_batch, decide_by, reply, answers, batch, evaluate_batch};
ghost use Rattle.model.specs.Batch.{replies as batch_replies};
ghost use Rattle.outcome.specs.Carried.{table, carried};
ghost use Rattle.refusal.specs.Numbers.{by_number};
ghost use Rattle.batch.specs.Answers.{handed, is_whole, Finds, number_of, taken, Replies, Runs};

use facts::TableKind;
use outcome::OutcomeTable;
use refusal::Refusal;

// A request: group (8), table length in bytes (24); day (32); then the table's words.
const REQUEST_WORDS: usize = 66;

const MOST_REQUESTS: usize = 64;

const LENGTHS: u32 = policy_model::THREE_QUARTERS;

// A sheet that is handed over: number (16), word count (16); then its words.
const SHEET_COUNTS: u32 = policy_model::HALF;

// Allowances are below it.
const ALLOWANCES: u32 = 65536;

// In a reply the nodes stand above the words.
const ABOVE_WORDS: u64 = 65536;

// What a decided request takes: the words written and the nodes visited.
#[derive(Clone, Copy)]
struct Decided {
    words: usize,
    nodes: u32,
}

// What a request comes to: its refusal, or what it takes, none where no sheet decides it.
type Reply = Result<Option<Decided>, Refusal>;

// What the requests of a batch are decided by: the outcome table of all, if one is given, the register, and the sheets handed over.
#[derive(Clone, Copy)]
struct Desk<'a> {
    outcomes: Option<OutcomeTable<'a>>,
    entries: &'a [u32],
    sheets: &'a [u32],
}

// Whether there are whole requests, few enough, and an allowance in its range.
fn is_batch(requests: &[u32], allowance: u32) -> bool
    ensures { result ≡ is_batch requests.now allowance }
{
    requests.len() % REQUEST_WORDS == 0
        && requests.len() <= MOST_REQUESTS * REQUEST_WORDS
        && allowance < ALLOWANCES
}

// Whether every sheet of the list has its words. No `for`: what is left of the list says where the next sheet begins.
fn is_whole(sheets: &[u32]) -> bool
    ensures { result ≡ is_whole (handed_over sheets.now) }
{
    let mut rest = sheets;
    while let Some((lead, tail)) = rest.split_first() {
        let Some((_, after)) = tail.split_at_checked((*lead % SHEET_COUNTS) as usize) else {
            return false;
        };
        rest = after;
    }
    true
}

// The first sheet of the number. No `for` here either.
fn find_sheet(sheets: &[u32], number: u32) -> Option<&[u32]>
    ensures { Finds sheets.now number result }
{
    let mut rest = sheets;
    while let Some((lead, tail)) = rest.split_first() {
        let (words, after) = tail.split_at_checked((*lead % SHEET_COUNTS) as usize)?;
        if *lead / SHEET_COUNTS == number {
            return Some(words);
        }
        rest = after;
    }
    None
}

// The table of a request from its words on: those that hold its `length` bytes.
fn load_table(words: &[u32], length: usize, bytes: &mut [u8; facts::TABLE_BYTES])
    requires { (length ≤ 256) × (table_words ≤ list_length words.now) × (list_length bytes.old ≡ 256) }
    ensures { (take length bytes.new ≡ table_in length (take table_words words.now)) × (list_length bytes.new ≡ 256) }
{
    for i in 0..length.div_ceil(4) {
        bytes[4 * i..4 * i + 4].copy_from_slice(&words[i].to_be_bytes());
    }
}

// Decides a request by its sheet: judged as by a direct call, counted, then decided. The number is one that a record can carry.
fn decide_by(
    outcomes: Option<OutcomeTable<'_>>,
    sheet: &[u32],
    number: u32,
    facts: &[u8],
    allowance: u32,
    out: &mut [u32],
) -> Reply
    requires { number < 2 ^ sheet_bits }
    ensures { Replies (decide_by (outcomes_of (carried outcomes.entry)) (some (handed number sheet.now)) facts.now allowance (list_length out.old)) out.old out.new result }
{
    let most = outcome::most(outcomes);
    calls::judge_sheet(sheet, number, facts, TableKind::Known, most)?;
    let Some(nodes) = visits::visits(sheet, facts, allowance) else {
        return Err(Refusal::Allowance);
    };
    let written = calls::decide(sheet, facts, outcomes, out);
    let words = answer::under_number(written, number, out)?;
    Ok(Some(Decided { words, nodes }))
}

// Decides a request by its sheet. A length beyond the bytes that a request has is that of a table which is too long (2), after the sheet's own length (1).
fn decide_request(
    outcomes: Option<OutcomeTable<'_>>,
    sheet: &[u32],
    number: u32,
    request: &[u32; REQUEST_WORDS],
    allowance: u32,
    out: &mut [u32],
) -> Reply
    requires { number < 2 ^ sheet_bits }
    ensures { Replies (decide_by (outcomes_of (carried outcomes.entry)) (some (handed number sheet.now)) (request_of request.now).facts allowance (list_length out.old)) out.old out.new result }
{
    let length = (request[0] % LENGTHS) as usize;
    if length > facts::TABLE_BYTES {
        calls::judge_length(sheet)?;
        return Err(Refusal::TableLength);
    }
    let mut bytes = [0u8; facts::TABLE_BYTES];
    load_table(&request[2..], length, &mut bytes);
    decide_by(outcomes, sheet, number, &bytes[..length], allowance, out)
}

// What a reply takes: nothing if it is no decision.
fn taken(reply: Reply) -> Decided
    ensures { result ≡ taken (by_number reply) }
{
    match reply {
        Ok(Some(decided)) => decided,
        Ok(None) | Err(_) => Decided { words: 0, nodes: 0 },
    }
}

// A reply as one number, as the C interface has it: 0 where no sheet decides.
fn number_of(reply: Reply) -> u64
    requires { (taken (by_number reply)).words ≤ record_words }
    ensures { result ≡ number_of (by_number reply) }
{
    match reply {
        Ok(None) => 0,
        Ok(Some(decided)) => u64::from(decided.nodes) * ABOVE_WORDS + decided.words as u64,
        Err(cause) => cause.high_half(),
    }
}

impl Desk<'_> {
    // The reply to a request: none where no sheet is in force or that one wasn't handed over.
    #[tactic(auto, using(crate::proofs::Handed::found))]
    fn reply_to(&self, request: &[u32; REQUEST_WORDS], allowance: u32, out: &mut [u32]) -> Reply
        requires { list_length self.now.entries.now ≤ register_words }
        ensures { (hs : List Handed) → handed_over self.now.sheets.now ≡ some hs → Replies (reply (outcomes_of (carried self.now.outcomes)) (entries_of self.now.entries.now) hs allowance (list_length out.old) (request_of request.now)) out.old out.new result }
    {
        let Some(entry) = register::in_force(self.entries, request[0] / LENGTHS, request[1]) else {
            return Ok(None);
        };
        let Some(sheet) = find_sheet(self.sheets, entry.number) else {
            return Ok(None);
        };
        decide_request(self.outcomes, sheet, entry.number, request, allowance, out)
    }

    // Replies to the requests in order, each with what those before left of the allowance and of the output. Returns the words written in all.
    fn run(&self, requests: &[u32], allowance: u32, replies: &mut [u64], out: &mut [u32]) -> usize
        requires { (list_length self.now.entries.now ≤ register_words) × (is_whole (handed_over self.now.sheets.now) ≡ true) × (request_count requests.now ≤ list_length replies.old) }
        ensures { (hs : List Handed) → handed_over self.now.sheets.now ≡ some hs → Runs (answers (batch_replies (outcomes_of (carried self.now.outcomes)) (entries_of self.now.entries.now) hs allowance (list_length out.old) (requests_of (request_count requests.now) requests.now))) replies.old replies.new out.old out.new (Ok result) }
    {
        let mut unspent = allowance;
        let mut used = 0;
        let whole = requests.as_chunks::<REQUEST_WORDS>().0;
        for (i, request) in whole.iter().enumerate() {
            let reply = self.reply_to(request, unspent, &mut out[used..]);
            replies[i] = number_of(reply);
            let decided = taken(reply);
            unspent -= decided.nodes;
            used += decided.words;
        }
        used
    }

    // Judges a batch and runs it.
    fn evaluate(
        &self,
        requests: &[u32],
        allowance: u32,
        replies: &mut [u64],
        out: &mut [u32],
    ) -> Result<usize, Refusal>
        ensures { Runs (batch (outcomes_of (carried self.now.outcomes)) self.now.entries.now self.now.sheets.now requests.now allowance (list_length replies.old) (list_length out.old)) replies.old replies.new out.old out.new result }
    {
        if !is_batch(requests, allowance) {
            return Err(Refusal::Length);
        }
        if !register::is_register(self.entries) {
            return Err(Refusal::Register);
        }
        if !is_whole(self.sheets) {
            return Err(Refusal::WordsEnd);
        }
        if replies.len() < requests.len() / REQUEST_WORDS {
            return Err(Refusal::Room);
        }
        Ok(self.run(requests, allowance, replies, out))
    }
}

// Runs a batch, and returns the words written in all. Beside it is one by an outcome table, since that one judges its table first.
pub fn evaluate_batch<'a>(
    entries: &'a [u32],
    sheets: &'a [u32],
    requests: &[u32],
    allowance: u32,
    replies: &mut [u64],
    out: &mut [u32],
) -> Result<usize, Refusal>
    ensures { Runs (evaluate_batch none entries.now sheets.now requests.now allowance (list_length replies.old) (list_length out.old)) replies.old replies.new out.old out.new result }
{
    let desk = Desk {
        outcomes: None,
        entries,
        sheets,
    };
    desk.evaluate(requests, allowance, replies, out)
}

// The same by an outcome table, one for the whole batch.
pub fn evaluate_batch_by_levels<'a>(
    levels: u32,
    outcomes: &'a [u8],
    entries: &'a [u32],
    sheets: &'a [u32],
    requests: &[u32],
    allowance: u32,
    replies: &mut [u64],
    out: &mut [u32],
) -> Result<usize, Refusal>
    ensures { Runs (evaluate_batch (some (table levels outcomes.now)) entries.now sheets.now requests.now allowance (list_length replies.old) (list_length out.old)) replies.old replies.new out.old out.new result }
{
    let table = outcome_table::accepted(levels, outcomes)?;
    let desk = Desk {
        outcomes: Some(table),
        entries,
        sheets,
    };
    desk.evaluate(requests, allowance, replies, out)
}
