// Replays the original's stored answers on the proved calls, and says how many differ.
// Standard input: a line that says how they were made, then the stored answers. Of each eight 16-bit numbers (call, room, table bytes, words, number,
// value, answer words, the sheet's number), the table, the words, and the words that stand first in the output afterwards; all most significant byte first.
#![tactic(auto)]

ghost use Rattle.std.specs.Prelude.{◌≡◌, ◌++◌, ◌+◌, ◌*◌, ◌^◌, ◌<◌, ◌≤◌, length, drop};
ghost use Rattle.model.specs.Products.{required_facts, required_residual_facts};
ghost use Rattle.answer.specs.Answers.{number_of as refusal_of, written_of};
ghost use Rattle.refusal.specs.Numbers.{by_number};
ghost use Rattle.listing.specs.Inputs.{words_in};
ghost use Rattle.vectors.specs.Words.{marks, set_words};
ghost use Rattle.vectors.specs.Replies.{number_of, Replied, reply_to, requiring};
ghost use Rattle.vectors.specs.Stored.{number_bytes, number_in, size_of, Whole, Fitted, Ran, told_in, agrees_in};
ghost use Rattle.vectors.specs.Tallies.{noted_in, step_of, tally_of};

use fact_set::FactSet;
use partial_policy::Order;
use refusal::Refusal;
use std::io;

// The calls whose answers are stored, by their numbers there.
#[derive(Clone, Copy)]
enum Call {
    Evaluate = 0,
    PartialEvaluate = 1,
    NarrowResidual = 2,
    CompleteResidual = 3,
    RequiredFacts = 4,
    RequiredResidualFacts = 5,
    IsPermitConstant = 6,
    IsDenyConstant = 7,
    CarriesObligation = 8,
}

// Those that are replayed, and their names.
const REPLAYED: [(Call, &str); 8] = [
    (Call::Evaluate, "evaluate"),
    (Call::PartialEvaluate, "partial_evaluate"),
    (Call::CompleteResidual, "complete_residual"),
    (Call::RequiredFacts, "required_facts"),
    (Call::RequiredResidualFacts, "required_residual_facts"),
    (Call::IsPermitConstant, "is_permit_constant"),
    (Call::IsDenyConstant, "is_deny_constant"),
    (Call::CarriesObligation, "carries_obligation"),
];

// What a call returns: the number of the refusal, 0 when accepted, and its value (words written or facts counted). Two numbers in place of a Result, since
// the stored answers have it so.
#[derive(Drop)]
struct Reply {
    number: usize,
    value: usize,
}

// How many answers of a call were replayed, how many differ, and the place of the first that does among all stored answers.
#[derive(Drop)]
struct Tally {
    replayed: usize,
    differ: usize,
    first: Option<usize>,
}

// ---- words

// The output before a call: at each place another word, so that one that is wrongly written or moved shows.
fn fill(out: &mut [u32])
    requires { length out.old < 65536 }
    ensures { out.new ≡ marks (length out.old) }
{
    for (i, word) in out.iter_mut().enumerate() {
        *word = 0x0F0F_0F0F + i as u32;
    }
}

// Writes the numbers of a set into an output of two words for each, the upper half first; an output of another length is left as it was.
fn put_set(set: &FactSet, out: &mut [u32])
    ensures { out.new ≡ set_words set.now out.old }
{
    if out.len() != 2 * fact_set::NUMBERS {
        return;
    }
    for (i, number) in set.iter().enumerate() {
        out[2 * i] = (*number >> 32) as u32;
        out[2 * i + 1] = (*number & 0xFFFF_FFFF) as u32;
    }
}

// ---- the proved calls

fn replied(answer: Result<usize, Refusal>) -> Reply
    ensures { (result.number ≡ refusal_of (by_number answer)) × (result.value ≡ written_of (by_number answer)) }
{
    match answer {
        Ok(value) => Reply { number: 0, value },
        Err(cause) => Reply {
            number: cause.number() as usize,
            value: 0,
        },
    }
}

// The required facts of a sheet. Apart from `record_facts`: one function for both, lent the call, would have to say for any call what it does to the set.
fn sheet_facts(sheet: &[u32], out: &mut [u32]) -> Reply
    ensures { Replied (requiring (required_facts sheet.now) out.old) out.new result }
{
    let mut set = [42405u64; fact_set::NUMBERS];
    let facts = required::required_facts(sheet, &mut set);
    put_set(&set, out);
    replied(facts.map(|count| count as usize))
}

// The required facts of a record.
fn record_facts(words: &[u32], out: &mut [u32]) -> Reply
    ensures { Replied (requiring (required_residual_facts words.now) out.old) out.new result }
{
    let mut set = [42405u64; fact_set::NUMBERS];
    let facts = required::required_residual_facts(words, &mut set);
    put_set(&set, out);
    replied(facts.map(|count| count as usize))
}

impl Call {
    fn number(self) -> usize
        ensures { result ≡ number_of self }
    {
        self as usize
    }

    // What the proved call returns and leaves in the output. One that writes no record takes no number of a sheet and no table.
    fn answer(self, sheet: u32, words: &[u32], table: &[u8], out: &mut [u32]) -> Reply
        ensures { Replied (reply_to self sheet words.now table.now out.old) out.new result }
    {
        match self {
            Call::Evaluate => replied(calls::evaluate(words, sheet, table, out)),
            Call::PartialEvaluate => replied(calls::partial_evaluate(
                words,
                sheet,
                Order::PermitsFirst,
                table,
                out,
            )),
            Call::NarrowResidual => replied(calls::narrow_residual(
                words,
                sheet,
                Order::PermitsFirst,
                table,
                out,
            )),
            Call::CompleteResidual => replied(calls::complete_residual(words, sheet, table, out)),
            Call::RequiredFacts => sheet_facts(words, out),
            Call::RequiredResidualFacts => record_facts(words, out),
            Call::IsPermitConstant => {
                replied(questions::is_permit_constant(words).map(usize::from))
            }
            Call::IsDenyConstant => replied(questions::is_deny_constant(words).map(usize::from)),
            Call::CarriesObligation => {
                replied(questions::carries_obligation(words).map(usize::from))
            }
        }
    }
}

// ---- a stored answer

// A stored answer begins with eight numbers of 16 bits.
const NUMBERS: usize = 16;

// So its sizes are below this.
const SIZES: usize = 65536;

// One of them.
fn number_in(case: &[u8], place: usize) -> usize
    requires { (place < 8) × (number_bytes ≤ length case.now) }
    ensures { (result ≡ number_in case.now place) × (result < 65536) }
{
    listing::number_at(case, 2 * place) as usize
}

// How many bytes the stored answer at the front takes, if it is whole.
fn size_of(input: &[u8]) -> Option<usize>
    ensures { result ≡ size_of input.now }
{
    if input.len() < NUMBERS {
        return None;
    }
    let size = NUMBERS + number_in(input, 2) + 4 * number_in(input, 3) + 4 * number_in(input, 6);
    if input.len() < size { None } else { Some(size) }
}

// The output that the stored answer at the front says: its words, which begin at a position, and after them what stood there.
fn expect(case: &[u8], at: usize, count: usize, out: &mut [u32])
    requires { (at + 4 * count ≤ length case.now) × (count ≤ length out.old) × (length out.old < 65536) }
    ensures { out.new ≡ words_in case.now at count ++ drop count (marks (length out.old)) }
{
    fill(out);
    // the words are there, as the case is whole
    listing::read_words(&case[at..], &mut out[..count]);
}

// Whether a call returned the stored number and value.
fn returned(case: &[u8], reply: Reply) -> bool
    requires { number_bytes ≤ length case.now }
    ensures { result ≡ told_in case.now reply.number reply.value }
{
    reply.number == number_in(case, 4) && reply.value == number_in(case, 5)
}

// Runs a call on the stored answer at the front, in an output as long as its room; the output that is expected stands beside it.
fn run(call: Call, case: &[u8], words: &mut [u32], expected: &mut [u32], out: &mut [u32]) -> Reply
    requires { Fitted case.now words.old expected.old out.old }
    ensures { Ran call case.now expected.new out.new result }
{
    let start = NUMBERS + number_in(case, 2);
    // they are there, as the case is whole
    listing::read_words(&case[start..], words);
    expect(case, start + 4 * words.len(), number_in(case, 6), expected);
    fill(out);
    let sheet = number_in(case, 7) as u32;
    call.answer(sheet, words, &case[NUMBERS..start], out)
}

// Whether the proved call answers as the stored answer at the front says. One that is longer than its room is no answer. The buffers are lent to one answer
// after the other, since to clear them takes longer than most calls.
fn agrees(
    call: Call,
    case: &[u8],
    words: &mut [u32; SIZES],
    expected: &mut [u32; SIZES],
    out: &mut [u32; SIZES],
) -> bool
    requires { Whole case.now }
    ensures { result ≡ agrees_in call case.now }
{
    let room = number_in(case, 1);
    let count = number_in(case, 3);
    if room < number_in(case, 6) {
        return false;
    }
    let expected = &mut expected[..room];
    let out = &mut out[..room];
    let given = run(call, case, &mut words[..count], expected, out);
    returned(case, given) && *out == *expected
}

// ---- tallies

// One more answer was replayed, and agrees or not, as was just found.
fn noted(tally: Tally, agreed: bool, place: usize) -> Tally
    requires { (tally.replayed + 1 < 2 ^ 64) × (tally.differ ≤ tally.replayed) }
    ensures { result ≡ noted_in tally agreed place }
{
    let replayed = tally.replayed + 1;
    if agreed {
        return Tally { replayed, ..tally };
    }
    Tally {
        replayed,
        differ: tally.differ + 1,
        first: tally.first.or(Some(place)),
    }
}

// The stored answer at the front, if it is one of the call.
fn step(
    call: Call,
    case: &[u8],
    tally: Tally,
    place: usize,
    words: &mut [u32; SIZES],
    expected: &mut [u32; SIZES],
    out: &mut [u32; SIZES],
) -> Tally
    requires { Whole case.now × (tally.replayed + 1 < 2 ^ 64) × (tally.differ ≤ tally.replayed) }
    ensures { result ≡ step_of call case.now place tally }
{
    if number_in(case, 0) != call.number() {
        return tally;
    }
    noted(tally, agrees(call, case, words, expected, out), place)
}

// The stored answers of a call, while they are whole. Each takes some bytes, so there are fewer than bytes.
fn tally_of(call: Call, cases: &[u8]) -> Tally
    ensures { result ≡ tally_of call cases.now }
{
    let mut tally = Tally {
        replayed: 0,
        differ: 0,
        first: None,
    };
    let words = &mut [0u32; SIZES];
    let expected = &mut [0u32; SIZES];
    let out = &mut [0u32; SIZES];
    let mut at = 0;
    for before in 0..cases.len() {
        let Some(size) = size_of(&cases[at..]) else {
            return tally;
        };
        let case = &cases[at..];
        tally = step(call, case, tally, before + 1, words, expected, out);
        at += size;
    }
    tally
}

// ---- the summary

// `NAME: N replayed, N differ`, and the place of the first that differs.
fn print(rt: &impl Print, name: &str, tally: Tally) -> io::Result<()> {
    print!(rt;
        "{name}: {} replayed, {} differ",
        tally.replayed, tally.differ
    )?;
    if let Some(first) = tally.first {
        print!(rt; ", the first is answer {first}")?;
    }
    println!(rt)
}

// One line for each call that is replayed.
fn summary(rt: &impl Print, cases: &[u8]) -> io::Result<()> {
    for (call, name) in REPLAYED {
        print(rt, name, tally_of(call, cases))?;
    }
    Ok(())
}

// The stored answers begin after the first line.
fn report(rt: &impl Print, input: &[u8]) -> io::Result<()> {
    match input.iter().position(|byte| *byte == b'\n') {
        Some(end) => summary(rt, &input[end + 1..]),
        None => Ok(()),
    }
}

// Room for the stored answers.
fn buffer() -> [u8; 1048576]
    ensures { 1048576 ≡ length result }
{
    [0; 1048576]
}

fn main(rt: HostRuntime) -> io::Result<()> {
    let mut buf = buffer();
    let read = input::read_full(&mut rt.stdin(), &mut buf)?;
    report(&rt, &buf[..read])
}
