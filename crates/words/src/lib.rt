// Words in bytes: lists of 32-bit words as bytes, four bytes a word, and numbers of 64 bits in eight
// bytes, low byte first. Nothing here knows what a word means.
#![tactic(auto)]

ghost use Rattle.std.specs.Prelude.{◌≡◌, ◌+◌, ◌/◌, ◌≤◌, ◌<◌, min, length, take};
ghost use Rattle.std.proofs.lemmas.List.Edits.{sets};
ghost use Rattle.words.specs.Bytes.{word_at, words_of, bytes_of, number_stored};

// The words of the bytes, as many as the list holds, at its front; how many. One to three bytes
// over are not read.
pub fn load(bytes: &[u8], list: &mut [u32]) -> usize
    ensures count { result ≡ min (length bytes.now / 4) (length list.old) }
    ensures loaded { list.new ≡ sets list.old 0 (words_of bytes.now) }
{
    let count = (bytes.len() / 4).min(list.len());
    for (i, word) in list[..count].iter_mut().enumerate() {
        *word = word_at(bytes, 4 * i);
    }
    count
}

// The words of the list, as many as fit whole, at the front of the bytes; the rest of the bytes is
// untouched.
pub fn store(list: &[u32], bytes: &mut [u8])
    ensures stored { bytes.new ≡ sets bytes.old 0 (bytes_of (take (length bytes.old / 4) list.now)) }
{
    let count = list.len().min(bytes.len() / 4);
    for (i, word) in list[..count].iter().enumerate() {
        put(&word.to_le_bytes(), bytes, 4 * i);
    }
}

// A number in eight bytes, low byte first, from `at` on; the rest is untouched. Bytes that do not reach so far are left alone.
pub fn store_number(number: u64, bytes: &mut [u8], at: usize)
    ensures stored { bytes.new ≡ number_stored number bytes.old at }
{
    if bytes.len() < 8 || bytes.len() - 8 < at {
        return;
    }
    put(&number.to_le_bytes(), bytes, at);
}

// The word whose four bytes stand from `at` on.
fn word_at(bytes: &[u8], at: usize) -> u32
    requires there { at + 4 ≤ length bytes.now }
    ensures result { result ≡ word_at bytes.now at }
{
    u32::from_le_bytes([bytes[at], bytes[at + 1], bytes[at + 2], bytes[at + 3]])
}

// Some bytes from `at` on.
// By hand: the chips' build takes no `copy_from_slice`, which makes numbers of pointers (chips/portable.awk).
fn put(from: &[u8], bytes: &mut [u8], at: usize)
    requires there { at + length from.now ≤ length bytes.old }
    ensures stored { bytes.new ≡ sets bytes.old at from.now }
{
    for (i, byte) in from.iter().enumerate() {
        bytes[at + i] = *byte;
    }
}
