// Residues drawn from raw words. No other crate knows how a word becomes a residue.
//   read  how many words are read for n residues, or that they are too few
//   draw  the residues, over the start of a lent slice
//   sift  the words kept, as they are, from bytes
// Mostly no word is thrown away. All three first look whether so, where it is to be expected, and take several words at a time then, since none
// decides.
// No function here is for hosts.
#![tactic(auto)]

ghost use Rattle.std.specs.Prelude.{◌≡◌, true, List, ℕ, ◌*◌, ◌/◌, ◌%◌, ◌<◌, ◌≤◌, ltb, length, get_or};
ghost use Rattle.protocol.specs.Drawing.{residues_of, drawn, words_read};
ghost use Rattle.algebra.specs.Count.{bit};
ghost use Rattle.algebra.specs.Words.{over};
ghost use Rattle.vectors.specs.Fill.{filled};
ghost use Rattle.entry.specs.Bytes.{words_of};
ghost use Rattle.drawing.specs.Extent.{read_for, residue_at, Kept, Collected};
ghost use Rattle.drawing.specs.Sift.{SiftedTo};

use reduction::{prepare, times};
use vectors::{all_below, set_each, write_copy};
use words::{get_words, word_at};

// Words below c are kept. It is 2^32 where q divides that.
fn limit(q: u32) -> u64
    requires { 0 < q }
    ensures { result ≡ q * (4294967296 / q) }
{
    4294967296 / q as u64 * q as u64
}

// Whether none of the first n words is thrown away. It says no without a look where one of them is to be expected: a look would be time lost.
fn all_kept(q: u32, n: usize, words: &[u32]) -> bool
    requires { (0 < q) × (n ≤ length words.now) }
    ensures { result ≡ true → Kept q n words.now }
{
    let below = limit(q);
    if below == 4294967296 {
        return true;
    }
    if 4294967296 / (4294967296 - below) < n as u64 {
        return false;
    }
    all_below(below as u32, &words[..n])
}

// Word by word. Coins are secret: behind a word one branch tells whether it was the last one needed, and past the words none does.
fn read_each(q: u32, n: usize, words: &[u32]) -> Option<usize>
    requires { 0 < q }
    ensures { result ≡ read_for q n words.now }
{
    let below = limit(q);
    let mut due = n;
    if due == 0 {
        return Some(0);
    }
    for (i, word) in words.iter().enumerate() {
        if (*word as u64) < below {
            due -= 1;
        }
        if due == 0 {
            return Some(i + 1);
        }
    }
    None
}

// How many words are read up to and with the last one kept; none, where too few are kept. No word past the last one needed is looked at.
pub fn read(q: u32, n: usize, words: &[u32]) -> Option<usize>
    requires { 0 < q }
    ensures { result ≡ read_for q n words.now }
{
    if n <= words.len() && all_kept(q, n, words) {
        return Some(n);
    }
    read_each(q, n, words)
}

// 1 for a word that is kept, and 0 for another.
fn kept(below: u64, w: u32) -> usize
    ensures { result ≡ bit (ltb w below) }
{
    if (w as u64) < below { 1 } else { 0 }
}

// How many words were kept, and how many were read up to and with the last one kept; all of them, where too few are kept.
#[derive(Clone, Copy)]
pub struct Sifted {
    pub kept: usize,
    pub read: usize,
}

// Word by word, until n are kept or none is left: one thrown away is written too, and the next word over it, so that none decides.
fn sift_each<F: Fn(usize) -> u32>(q: u32, n: usize, many: usize, word: F, out: &mut [u32]) -> Sifted
    requires { (0 < q) × (n ≤ length out.old) × ((i : ℕ) → i < many → F.pre word i) }
    ensures { (ws : List ℕ) → length ws ≡ many → ((i w : ℕ) → i < many → F.post word i w → w ≡ get_or ws i 0) → SiftedTo q n ws out.old out.new result }
{
    let below = limit(q);
    let mut j = 0;
    for i in 0..many {
        if n <= j {
            return Sifted { kept: j, read: i };
        }
        let w = word(i);
        out[j] = w;
        j += kept(below, w);
    }
    Sifted {
        kept: j,
        read: many,
    }
}

// The first n words kept, over the start of `out`; the answer is how many were read.
fn collect(q: u32, n: usize, words: &[u32], out: &mut [u32]) -> usize
    requires { (0 < q) × (n ≤ length (residues_of q words.now)) × (n ≤ length out.old) }
    ensures value { result ≡ words_read q n words.now }
    ensures collected { Collected q n words.now out.old out.new }
{
    if all_kept(q, n, words) {
        write_copy(n, words, out);
        return n;
    }
    sift_each(q, n, words.len(), |i| words[i], out).read
}

// The first n words modulo q, in place.
fn reduce_words(q: u32, n: usize, out: &mut [u32])
    requires { (0 < q) × (q < 2147483648) × (n ≤ length out.old) }
    ensures { out.new ≡ filled n (residue_at q out.old) out.old }
{
    let unit = prepare(1 % q, q);
    set_each(n, out, |_, w| times(unit, w, q));
}

// The first n residues over the first words of `out`; the answer is how many words were read.
pub fn draw(q: u32, n: usize, words: &[u32], out: &mut [u32]) -> usize
    requires { ((0 < q) × (q < 2147483648)) × (n ≤ length (residues_of q words.now)) × (n ≤ length out.old) }
    ensures value { result ≡ words_read q n words.now }
    ensures out_after { out.new ≡ over (drawn q n words.now) out.old }
{
    let read = collect(q, n, words, out);
    reduce_words(q, n, out);
    read
}

// The first n words kept, over the start of `out`: a step that draws from them draws what it would draw from all. Where there are fewer,
// other words may stand behind them, up to n.
pub fn sift(q: u32, n: usize, bytes: &[u8], out: &mut [u32]) -> Sifted
    requires { (0 < q) × (n ≤ length out.old) }
    ensures { SiftedTo q n (words_of bytes.now) out.old out.new result }
{
    let many = bytes.len() / 4;
    if n <= many {
        get_words(n, bytes, out);
        if all_kept(q, n, out) {
            return Sifted { kept: n, read: n };
        }
    }
    sift_each(q, n, many, |i| word_at(bytes, i * 4), out)
}
