// Lines of 32-bit numbers in decimal, parted by commas and ended by byte 10: from bytes to words and back.
// Entry for hosts: `numbers`, which takes any bytes; the other functions are for the engine's own crates.
//   numbers      a line of numbers
//   load         a line's numbers into the engine's own words, in one pass over the bytes, up to the first fault
//   load_behind  the same without the first numbers
//   put_numbers  a run of numbers as bytes, in one pass over the numbers
//   line_length  how many bytes a run of numbers takes; digit_count: the digits of one
#![tactic(auto)]

ghost use Rattle.std.specs.Prelude.{◌≡◌, [], ◌∷◌, ◌++◌, ◌+◌, ◌*◌, ◌-◌, ◌^◌, ◌≤◌, ◌<◌, length, set, drop};
ghost use Rattle.std.proofs.lemmas.List.Edits.{sets};
ghost use Rattle.protocol.specs.declared.Numeral.TheVariants.{Empty, Value};
ghost use Rattle.protocol.specs.Judge.{reply_of};
ghost use Rattle.protocol.specs.Line.{end_byte, decimal, line, numbers_of, numbers_into};
ghost use Rattle.decimal.specs.Reading.{grow, Ended, Ran, Stops, Finds, set_behind, spell, tally_in, tally_of, numbers_before, count_reply, count_of, words_after};
ghost use Rattle.decimal.specs.Writing.{digit_at, high, line_before};

use protocol::Refusal;

// ---- reading

// The digits read so far as a number, and the position of the next byte.
#[derive(Clone, Copy)]
pub struct Run {
    pub value: u64,
    pub next: usize,
}

// A number of a line, and the position behind the byte that ends it.
#[derive(Clone, Copy)]
pub struct Found {
    pub value: u32,
    pub next: usize,
}

// The byte that ends a number with `left` bytes or numbers behind it.
fn end_byte(left: usize) -> u8
    ensures { result ≡ end_byte left }
{
    if left == 0 { 10 } else { 44 }
}

// One digit more, where the next byte is one.
fn step(s: &[u8], r: Run) -> Run
    requires { (r.next < length s.now) × (r.value < 10 ^ 18) }
    ensures { result ≡ grow s.now r }
{
    let next = r.next;
    let b = s[next];
    if b < 48 {
        return r;
    }
    if 57 < b {
        return r;
    }
    Run {
        value: r.value * 10 + (b - 48) as u64,
        next: next + 1,
    }
}

// The digits behind a first one: at most nine more are needed to see that a number has more than 32 bits.
fn digits(s: &[u8], r: Run) -> Run
    requires { (r.next < length s.now) × (1 ≤ r.value) × (r.value < 10) × Ended s.now }
    ensures { Ran s.now r result }
{
    let mut t = r;
    for _ in 0..9u8 {
        t = step(s, t);
    }
    t
}

// The number that has been read, where the byte that ends it follows.
fn end_at(s: &[u8], value: u32, next: usize) -> Option<Found>
    requires { (next < length s.now) × Stops s.now (Value value) next }
    ensures { Finds (Value value) s.now next result }
{
    let after = next + 1;
    if s[next] != end_byte(s.len() - after) {
        return None;
    }
    Some(Found { value, next: after })
}

// The number that begins at a position, or none where what stands there belongs to no line.
fn number_at(s: &[u8], at: usize) -> Option<Found>
    requires { (at < length s.now) × Ended s.now }
    ensures { Finds Empty s.now at result }
{
    let b = s[at];
    if b < 48 {
        return None;
    }
    if 57 < b {
        return None;
    }
    if b == 48 {
        return end_at(s, 0, at + 1);
    }
    let r = digits(
        s,
        Run {
            value: (b - 48) as u64,
            next: at + 1,
        },
    );
    if 4294967295 < r.value {
        return None;
    }
    end_at(s, r.value as u32, r.next)
}

// A word at its place, where there is room for it.
fn put_word(out: &mut [u32], at: usize, value: u32)
    ensures { out.new ≡ set out.old at value }
{
    if at < out.len() {
        out[at] = value;
    }
}

// The number at index n of a line whose first `skip` are not stored.
fn put_behind(out: &mut [u32], skip: usize, n: usize, value: u32)
    ensures { out.new ≡ set_behind skip out.old n value }
{
    if n < skip {
        return;
    }
    put_word(out, n - skip, value);
}

// The numbers of a line's bytes up to the first fault; those behind the first `skip` are stored, as many as there is room for.
// The answer is how many there are, none where there is a fault.
fn scan(s: &[u8], skip: usize, out: &mut [u32]) -> Option<usize>
    requires { Ended s.now }
    ensures answered { result ≡ tally_in (spell Empty s.now) }
    ensures contents { out.new ≡ sets out.old 0 (drop skip (spell Empty s.now).values) }
{
    let mut n: usize = 0;
    let mut i: usize = 0;
    while i < s.len() {
        let found = number_at(s, i)?;
        put_behind(out, skip, n, found.value);
        n += 1;
        i = found.next;
    }
    Some(n)
}

// The numbers of a whole line, of at most 65,536 bytes, up to the first fault; those behind the first `skip` are stored, as many as there is room for.
pub fn load_behind(s: &[u8], skip: usize, out: &mut [u32]) -> Option<usize>
    ensures answered { result ≡ tally_of (numbers_of s.now) }
    ensures contents { out.new ≡ sets out.old 0 (drop skip (numbers_before s.now)) }
{
    let n = s.len();
    if n == 0 {
        return None;
    }
    if 65536 < n {
        return None;
    }
    if s[n - 1] != 10 {
        return None;
    }
    scan(s, skip, out)
}

// The same with all of them.
pub fn load(s: &[u8], out: &mut [u32]) -> Option<usize>
    ensures answered { result ≡ tally_of (numbers_of s.now) }
    ensures contents { out.new ≡ sets out.old 0 (numbers_before s.now) }
{
    load_behind(s, 0, out)
}

// Reads a line of numbers into a lent slice. Refused by 1, or by 4 where the slice is too short; nothing is stored then.
pub fn numbers(s: &[u8], out: &mut [u32]) -> Result<usize, Refusal>
    ensures answered { count_reply result ≡ reply_of 0 (count_of (numbers_into (length out.old) s.now)) }
    ensures contents { out.new ≡ words_after (numbers_into (length out.old) s.now) out.old }
{
    let mut spare = [0u32; 1];
    let n = load(s, &mut spare).ok_or(Refusal::Form)?;
    if out.len() < n {
        return Err(Refusal::Size);
    }
    load(s, out);
    Ok(n)
}

// ---- writing

// The powers of ten that a 32-bit number may reach, from the highest on, without 1.
const POWERS: [u32; 9] = [
    1000000000, 100000000, 10000000, 1000000, 100000, 10000, 1000, 100, 10,
];

// The digit of n that stands for `power`, where n reaches it, and the position behind it.
fn put_digit(n: u32, power: u32, out: &mut [u8], at: usize) -> usize
    requires { (0 < power) × (at + length (digit_at n power) ≤ length out.old) }
    ensures place { result ≡ at + length (digit_at n power) }
    ensures contents { out.new ≡ sets out.old at (digit_at n power) }
{
    if n < power {
        return at;
    }
    out[at] = 48 + (n / power % 10) as u8;
    at + 1
}

// The digits of n above the last one.
fn put_high(n: u32, out: &mut [u8], at: usize) -> usize
    requires { at + length (decimal n) ≤ length out.old }
    ensures place { result + 1 ≡ at + length (decimal n) }
    ensures contents { out.new ≡ sets out.old at (high n) }
{
    let mut p = at;
    for power in &POWERS {
        p = put_digit(n, *power, out, p);
    }
    p
}

// A number and the byte that ends it, and the position behind them.
fn put_number(n: u32, last: u8, out: &mut [u8], at: usize) -> usize
    requires { at + length (decimal n) + 1 ≤ length out.old }
    ensures place { result ≡ at + length (decimal n) + 1 }
    ensures contents { out.new ≡ sets out.old at (decimal n ++ (last ∷ [])) }
{
    let p = put_high(n, out, at);
    out[p] = 48 + (n % 10) as u8;
    out[p + 1] = last;
    p + 2
}

// Numbers of a line behind which `more` numbers are to stand, and the position behind them.
pub fn put_numbers(xs: &[u32], more: usize, out: &mut [u8], at: usize) -> usize
    requires { (at + length (line_before more xs.now) ≤ length out.old) × (length xs.now + more < 2 ^ 64) }
    ensures place { result ≡ at + length (line_before more xs.now) }
    ensures contents { out.new ≡ sets out.old at (line_before more xs.now) }
{
    let mut p = at;
    for (j, x) in xs.iter().enumerate() {
        p = put_number(*x, end_byte(xs.len() - (j + 1) + more), out, p);
    }
    p
}

// How many digits n has.
pub fn digit_count(n: u32) -> usize
    ensures { result ≡ length (decimal n) }
{
    match n {
        1000000000.. => 10,
        100000000.. => 9,
        10000000.. => 8,
        1000000.. => 7,
        100000.. => 6,
        10000.. => 5,
        1000.. => 4,
        100.. => 3,
        10.. => 2,
        _ => 1,
    }
}

// How many bytes n takes with the byte that ends it.
fn field_length(n: u32) -> usize
    ensures bytes { result ≡ length (decimal n) + 1 }
    ensures few { result ≤ 11 }
{
    digit_count(n) + 1
}

// How many bytes the numbers take, each with the byte that ends it.
pub fn line_length(xs: &[u32]) -> usize
    requires { length xs.now ≤ 4096 }
    ensures bytes { result ≡ length (line xs.now) }
    ensures few { result ≤ 11 * length xs.now }
{
    xs.iter().map(|x| field_length(*x)).sum()
}
