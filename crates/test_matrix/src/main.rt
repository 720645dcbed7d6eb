// Prints products, sums and differences at the edges. A line has a name, the first and the last word written, the word after it, and a
// digest of the whole slice, whose words past the count keep their value. The expected lines were worked out by another program.
#![tactic(auto)]

ghost use Rattle.std.specs.Prelude.{◌≡◌, ◌*◌, ◌<◌, ◌≤◌, length};
ghost use Rattle.rows.specs.Shape.{Shape};

use field::Field;
use matrix::Sides;
use sides::Matrix;
use std::fmt::Display;
use std::io;

fn next(state: u32) -> u32 {
    ((state as u64 * 1664525 + 1013904223) % 4294967296) as u32
}

// 2,048 words below q.
fn residues(q: u32, seed: u32) -> [u32; 2048]
    requires { 0 < q }
{
    let mut out = [0u32; 2048];
    let mut state = seed;
    for word in &mut out {
        state = next(state);
        *word = state % q;
    }
    out
}

fn digest(d: u32, word: u32) -> u32
    ensures { result < 1000000007 }
{
    ((d as u64 * 31 + word as u64) % 1000000007) as u32
}

// The line of a slice whose first n words are written.
fn show<F: FnOnce(&mut [u32])>(
    rt: &impl Print,
    name: impl Display + Drop,
    n: usize,
    write: F,
) -> io::Result<()>
    requires { (0 < n) × (n < 1028) × ((out : _) → length out.now ≡ 1028 → F.pre write out) }
{
    let mut out = [4294967295u32; 1028];
    write(&mut out);
    let whole = out.iter().fold(0, |d, word| digest(d, *word));
    println!(rt; "{name},{},{},{},{whole}", out[0], out[n - 1], out[n])
}

fn show_product(rt: &impl Print, s: Sides, x: &[u32; 2048], y: &[u32; 2048]) -> io::Result<()>
    requires { Shape s.q s.m s.k s.p 2048 2048 1028 × (0 < s.m * s.p) × (s.m * s.p < 1028) }
{
    let Sides { q: _, m, k, p } = s;
    show(rt, format_args!("{m}x{k}x{p}"), m * p, |out| {
        matrix::write_product(s, x, y, out)
    })
}

fn show_fit(rt: &impl Print, m: u32, k: u32, p: u32) -> io::Result<()> {
    let word = if Matrix::sides_fit(m, k, p) {
        "fit"
    } else {
        "no"
    };
    println!(rt; "{word},{m},{k},{p}")
}

const FITS: [(u32, u32, u32); 13] = [
    (1, 2048, 1),
    (1, 2049, 1),
    (32, 64, 32),
    (32, 65, 32),
    (33, 1, 1),
    (1, 1, 33),
    (32, 1, 32),
    (0, 1, 1),
    (1, 0, 1),
    (1, 1, 0),
    (1, 64, 32),
    (1, 65, 32),
    (4294967295, 4294967295, 1),
];

fn show_inner(rt: &impl Print, q: u32, x: &[u32; 2048], y: &[u32; 2048]) -> io::Result<()>
    requires { (0 < q) × (q < 2147483648) }
{
    let days = matrix::inner_product(q, 366, x, y);
    let all = matrix::inner_product(q, 2048, x, y);
    println!(rt; "inner,{days},{all}")
}

fn show_products(rt: &impl Print, q: u32, x: &[u32; 2048], y: &[u32; 2048]) -> io::Result<()>
    requires { (0 < q) × (q < 2147483648) }
{
    show_product(
        rt,
        Sides {
            q,
            m: 32,
            k: 64,
            p: 32,
        },
        x,
        y,
    )?;
    show_product(
        rt,
        Sides {
            q,
            m: 16,
            k: 16,
            p: 17,
        },
        x,
        y,
    )?;
    show_product(
        rt,
        Sides {
            q,
            m: 1,
            k: 2048,
            p: 1,
        },
        x,
        y,
    )?;
    show_product(
        rt,
        Sides {
            q,
            m: 1,
            k: 1,
            p: 1,
        },
        x,
        y,
    )?;
    show_product(
        rt,
        Sides {
            q,
            m: 32,
            k: 1,
            p: 32,
        },
        x,
        y,
    )
}

// The formulas, with x and y for the matrices that are added and taken away.
fn show_formulas(rt: &impl Print, q: u32, x: &[u32; 2048], y: &[u32; 2048]) -> io::Result<()>
    requires { (0 < q) × (q < 2147483648) }
{
    let s = Sides {
        q,
        m: 16,
        k: 16,
        p: 17,
    };
    show(rt, "deal", 272, |out| matrix::write_deal(s, x, y, y, out))?;
    show(
        rt,
        "masked",
        272,
        |out| matrix::write_masked(s, x, y, y, out),
    )?;
    show(
        rt,
        "reply",
        272,
        |out| matrix::write_reply(s, x, y, x, y, out),
    )?;
    show(
        rt,
        "share",
        272,
        |out| matrix::write_share(s, x, y, x, y, out),
    )
}

// Sum, difference and the rest, of 1,024 entries.
fn show_entries(rt: &impl Print, q: u32, a: &[u32; 2048], b: &[u32; 2048]) -> io::Result<()>
    requires { 0 < q }
{
    let n = 1024;
    show(rt, "sum", n, |out| vectors::write_sum(q, n, a, b, out))?;
    show(
        rt,
        "difference",
        n,
        |out| vectors::write_difference(q, n, a, b, out),
    )?;
    show(rt, "add_to", n, |out| vectors::add_to(q, n, out, b))?;
    show(
        rt,
        "subtract_from",
        n,
        |out| vectors::subtract_from(q, n, out, a),
    )?;
    show(
        rt,
        "negative",
        n,
        |out| vectors::write_negative(q, n, b, out),
    )?;
    show(rt, "copy", n, |out| vectors::write_copy(n, a, out))?;
    show(rt, "zeros", n, |out| vectors::write_zeros(n, out))
}

// One modulus, on words below `bound`.
fn show_modulus(rt: &impl Print, q: u32, bound: u32) -> io::Result<()>
    requires { (0 < q) × (q < 2147483648) × (0 < bound) }
{
    let x = residues(bound, 1);
    let y = residues(bound, 2);
    show_inner(rt, q, &x, &y)?;
    show_products(rt, q, &x, &y)?;
    show_formulas(rt, q, &x, &y)?;
    show_entries(rt, q, &x, &y)
}

fn main(rt: HostRuntime) -> io::Result<()> {
    for (m, k, p) in FITS {
        show_fit(&rt, m, k, p)?;
    }
    let inner = Sides {
        q: Field::LARGEST,
        m: 1,
        k: 2048,
        p: 1,
    };
    let most = [2147483646u32; 2048];
    show_inner(&rt, Field::LARGEST, &most, &most)?;
    show_product(&rt, inner, &most, &most)?;
    show_product(
        &rt,
        Sides {
            q: Field::LARGEST,
            m: 32,
            k: 64,
            p: 32,
        },
        &most,
        &most,
    )?;
    let over = [4294967295u32; 2048];
    show_inner(&rt, Field::LARGEST, &over, &over)?;
    show_product(&rt, inner, &over, &over)?;
    show_modulus(&rt, 1, 1)?;
    show_modulus(&rt, 2, 2)?;
    show_modulus(&rt, 7, 7)?;
    show_modulus(&rt, 65537, 65537)?;
    show_modulus(&rt, Field::LARGEST, Field::LARGEST)?;
    show_modulus(&rt, 7, 4294967295)
}
