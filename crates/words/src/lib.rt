// Words in byte slices, the lowest byte first. No function here is for hosts.
//   word_at               a word at a place
//   get_words, put_words  the first n words of bytes, and the bytes of n words
//   bytes_known           for proofs alone: bytes are below 256
#![tactic(auto)]

ghost use Rattle.std.specs.Prelude.{◌≡◌, ℕ, ◌+◌, ◌*◌, ◌≤◌, ◌<◌, length, get_or, take};
ghost use Rattle.algebra.specs.Words.{over};
ghost use Rattle.entry.specs.Bytes.{word_at, words_of, word_bytes, bytes_of};

use vectors::set_each;

pub fn word_at(bytes: &[u8], at: usize) -> u32
    requires { at + 4 ≤ length bytes.now }
    ensures { result ≡ word_at bytes.now at }
{
    u32::from_le_bytes([bytes[at], bytes[at + 1], bytes[at + 2], bytes[at + 3]])
}

// The first n words of the bytes, over the start of `out`.
pub fn get_words(n: usize, bytes: &[u8], out: &mut [u32])
    requires { (n * 4 ≤ length bytes.now) × (n ≤ length out.old) }
    ensures { out.new ≡ over (take n (words_of bytes.now)) out.old }
{
    set_each(n, out, |i, _| word_at(bytes, i * 4));
}

fn put_word(w: u32, out: &mut [u8])
    requires { 4 ≤ length out.old }
    ensures { out.new ≡ over (word_bytes w) out.old }
{
    out[..4].copy_from_slice(&w.to_le_bytes());
}

// The bytes of the first n words, over the start of `out`.
pub fn put_words(n: usize, words: &[u32], out: &mut [u8])
    requires { (n ≤ length words.now) × (n * 4 ≤ length out.old) }
    ensures { out.new ≡ over (bytes_of (take n words.now)) out.old }
{
    for (i, &word) in words[..n].iter().enumerate() {
        let at = i * 4;
        put_word(word, &mut out[at..]);
    }
}

// Nothing else hands on that the bytes of a slice are bytes.
pub fn bytes_known(s: &[u8])
    ensures { (i : ℕ) → get_or s.now i 0 < 256 }
{
    if s.len() == 0 {
        return;
    }
    let _first = s[0];
}
