// The bounds on the sides, residues and unknowns of matrices.
//   Matrix   the bounds; sides_fit, system_sides_fit: of a product, and of a system or its determinant; unknowns_fit
// No function here is for hosts.
#![tactic(auto, unfolding(algebra::specs::Count::both, protocol::specs::Bounds::within, protocol::specs::Bounds::sides_fit))]

ghost use Rattle.std.specs.Prelude.{◌≡◌};
ghost use Rattle.protocol.specs.Bounds.{within, most_unknowns, sides_fit, product, system};

// What the bounds on matrices belong to.
#[derive(Clone, Copy)]
pub struct Matrix {}

impl Matrix {
    // m and p, where an m by k and a k by p matrix are multiplied.
    pub const LONGEST_SIDE: u32 = 32;

    // k, the inner side.
    pub const LONGEST_INNER: u32 = 2048;

    // The residues of either matrix.
    pub const MOST_RESIDUES: u32 = 2048;

    // The unknowns of a system.
    pub const MOST_UNKNOWNS: u32 = 16;

    // Whether an m by k and a k by p matrix can be multiplied.
    pub fn sides_fit(m: u32, k: u32, p: u32) -> bool
        ensures { result ≡ sides_fit product m k p }
    {
        (1..=Matrix::LONGEST_SIDE).contains(&m)
            && (1..=Matrix::LONGEST_SIDE).contains(&p)
            && (1..=Matrix::LONGEST_INNER).contains(&k)
            && m * k <= Matrix::MOST_RESIDUES
            && k * p <= Matrix::MOST_RESIDUES
    }

    // Whether a system may have n unknowns.
    pub fn unknowns_fit(n: u32) -> bool
        ensures { result ≡ within 1 most_unknowns n }
    {
        (1..=Matrix::MOST_UNKNOWNS).contains(&n)
    }

    // Whether these are the sides of a system: n, n and n + 1, or n where its determinant is asked for.
    pub fn system_sides_fit(m: u32, k: u32, p: u32) -> bool
        ensures { result ≡ sides_fit system m k p }
    {
        Matrix::unknowns_fit(m) && k == m && (m..=m + 1).contains(&p)
    }
}
