// Lists of fields in words of 32 bits, most significant first: written into a slice that the caller lends, and read from words.
#![tactic(auto)]

ghost use Rattle.std.specs.Prelude.{◌≡◌, ◌∷◌, [], ◌+◌, ◌/◌, ◌^◌, ◌≤◌, ◌<◌, length, drop};
ghost use Rattle.model.specs.Fields.{joined, words_for, pack};
ghost use Rattle.model.specs.Writing.{obligation_bits, entry_bits};
ghost use Rattle.laws.specs.FieldAt.{field_at};
ghost use Rattle.packing.specs.Written.{Written};

// A word of two fields of 16 bits.
fn entries_word(first: u16, second: u16) -> u32
    ensures { result ≡ joined entry_bits 2 (first ∷ second ∷ []) }
{
    first as u32 * policy_model::HALF + second as u32
}

// A word of four fields of 8 bits.
fn obligations_word(first: u8, second: u8, third: u8, fourth: u8) -> u32
    ensures { result ≡ joined obligation_bits 4 (first ∷ second ∷ third ∷ fourth ∷ []) }
{
    u32::from_be_bytes([first, second, third, fourth])
}

// Facts or consulted entries, two a word; an unused last field is 0. The loop has no test but its own, so it is compiled to work on many words at a
// time. Each width has its loop: one over both would join each word in a loop of its own.
#[tactic(auto, using(crate::specs::PackedLaws::packed_number, crate::specs::WrittenLaws::sofar_all))]
pub fn pack_entries(values: &[u16], out: &mut [u32]) -> usize
    requires { words_for 2 (length values.now) ≤ length out.old }
    ensures { (result ≡ words_for 2 (length values.now)) × Written (pack entry_bits values.now) out.old out.new result }
{
    let count = values.len();
    let full = count / 2;
    for j in 0..full {
        out[j] = entries_word(values[j * 2], values[j * 2 + 1]);
    }
    if count % 2 == 0 {
        return full;
    }
    out[full] = entries_word(values[count - 1], 0);
    full + 1
}

// Obligations, four a word; unused tail fields are 0. The words are counted here: `policy_model::obligation_words` takes a list's count in 32 bits, not a
// slice's length.
#[tactic(auto, using(crate::specs::PackedLaws::packed_number, crate::specs::WrittenLaws::sofar_all))]
pub fn pack_obligations(values: &[u8], out: &mut [u32]) -> usize
    requires { words_for 4 (length values.now) ≤ length out.old }
    ensures { (result ≡ words_for 4 (length values.now)) × Written (pack obligation_bits values.now) out.old out.new result }
{
    let count = values.len();
    let words = (count + 3) / 4;
    for j in 0..words {
        let first = j * 4;
        out[j] = obligations_word(
            policy_model::value_at(values, first, 0),
            policy_model::value_at(values, first + 1, 0),
            policy_model::value_at(values, first + 2, 0),
            policy_model::value_at(values, first + 3, 0),
        );
    }
    words
}

// Obligation number `index` of the list that begins at `at`, 0 past the end of the words. The place in the word is a shift, so nothing branches on it. Each
// width has its function, one line: a generic one would take the width, and each of its uses would say it again.
#[tactic(auto, using(laws::proofs::FieldAtLaws::field_by_shift))]
pub fn unpack_obligation(words: &[u32], at: usize, index: usize) -> u8
    requires { at + index / 4 < 2 ^ 64 }
    ensures { result ≡ field_at obligation_bits (drop at words.now) index }
{
    let word = policy_model::word_at(words, at + index / 4);
    ((word >> (24 - index % 4 * 8)) % policy_model::QUARTER) as u8
}

// Field number `index` of the list of facts or consulted entries that begins at `at`, 0 past the end of the words. A function of its own, as
// `unpack_obligation` says.
#[tactic(auto, using(laws::proofs::FieldAtLaws::field_by_shift))]
pub fn unpack_entry(words: &[u32], at: usize, index: usize) -> u16
    requires { at + index / 2 < 2 ^ 64 }
    ensures { result ≡ field_at entry_bits (drop at words.now) index }
{
    let word = policy_model::word_at(words, at + index / 2);
    ((word >> (16 - index % 2 * 16)) % policy_model::HALF) as u16
}
