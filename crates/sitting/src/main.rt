// The program `sitting`: reads a request from standard input, decides it and writes its listing.
#![tactic(auto)]

ghost use Rattle.std.specs.Prelude.{◌≤◌, length, drop};
ghost use Rattle.model.specs.Facts.{known_facts, table_fault};
ghost use Rattle.model.specs.Reading.{sheet_words};
ghost use Rattle.model.specs.Listing.{checked, refused_text, sitting as listing_of};
ghost use Rattle.refusal.specs.Numbers.{number_of};
ghost use Rattle.sitting.specs.Requests.{from_table};
ghost use Rattle.listing.specs.Texts.{Wrote, listing_room};

use policy_model::SHEET_WORDS;
use refusal::Refusal;
use std::io::{self, Write};

// A request that is read whole takes no more bytes than this: a word count, 4,096 words, a table length and 256 bytes. Later bytes are ignored.
const REQUEST: usize = 2 + 4 * SHEET_WORDS + 2 + facts::TABLE_BYTES;

// The record of any sheet fits: three times its words plus 513.
const RECORD: usize = 3 * SHEET_WORDS + 513;

// Lists a refusal by its number.
fn list_refusal(cause: Refusal, out: &mut [u8]) -> usize
    requires { 13 ≤ length out.old }
    ensures { Wrote (refused_text (number_of cause)) out.old out.new result }
{
    listing::list_refusal(cause.number(), out)
}

// Lists what is decided of a sheet with a table, each in its range. A listing has no number of a sheet, so the record is without one.
fn list_decision(sheet: &[u32], facts: &[u8], out: &mut [u8]) -> usize
    requires { (1 ≤ length sheet.now) × (length sheet.now ≤ sheet_words) × (listing_room ≤ length out.old) }
    ensures { Wrote (checked (table_fault known_facts facts.now) sheet.now facts.now) out.old out.new result }
{
    let mut record = [0u32; RECORD];
    match calls::evaluate(sheet, 0, facts, &mut record) {
        Ok(words) => listing::list_record(&record[..words], out),
        Err(cause) => list_refusal(cause, out),
    }
}

// Lists a request whose words were read, from the table's length on, at `at`.
fn list_table(sheet: &[u32], input: &[u8], at: usize, out: &mut [u8]) -> usize
    requires { (1 ≤ length sheet.now) × (length sheet.now ≤ sheet_words) × (at ≤ length input.now) × (listing_room ≤ length out.old) }
    ensures { Wrote (from_table sheet.now (drop at input.now)) out.old out.new result }
{
    if input.len() - at < 2 {
        return list_refusal(Refusal::WordsEnd, out);
    }
    let size = listing::number_at(input, at) as usize;
    if size > facts::TABLE_BYTES {
        return list_refusal(Refusal::TableLength, out);
    }
    let start = at + 2;
    if input.len() - start < size {
        return list_refusal(Refusal::WordsEnd, out);
    }
    let end = start + size;
    list_decision(sheet, &input[start..end], out)
}

// Lists a request of any bytes.
fn list_request(input: &[u8], out: &mut [u8]) -> usize
    requires { listing_room ≤ length out.old }
    ensures { Wrote (listing_of input.now) out.old out.new result }
{
    if input.len() < 2 {
        return list_refusal(Refusal::WordsEnd, out);
    }
    let count = listing::number_at(input, 0) as usize;
    if count == 0 || count > SHEET_WORDS {
        return list_refusal(Refusal::Length, out);
    }
    let mut sheet = [0u32; SHEET_WORDS];
    if listing::read_words(&input[2..], &mut sheet[..count]) {
        return list_table(&sheet[..count], input, 2 + 4 * count, out);
    }
    list_refusal(Refusal::WordsEnd, out)
}

fn main(rt: HostRuntime) -> io::Result<()> {
    let mut buf = [0u8; REQUEST];
    let mut out = [0u8; listing::LISTING_ROOM];
    let mut stdin = rt.stdin();
    let read = input::read_full(&mut stdin, &mut buf)?;
    // To the input's end, so that whoever writes it is not cut off. What was read whole is listed also where the rest can't be read.
    let rest = io::copy(&mut stdin, &mut io::sink());
    let written = list_request(&buf[..read], &mut out);
    rt.stdout().write_all(&out[..written])?;
    rest?;
    Ok(())
}
