// The first words of a slice, each set from its place and what stood there.
ghost use Rattle.std.specs.Prelude.{◌≡◌, ℕ, ◌<◌, ◌≤◌, length, get_or, drop};

// The first n words, each by f of its place and what it was; the others keep their value.
pub fn set_each<T: Copy, F: Fn(usize, T) -> T>(n: usize, out: &mut [T], f: F)
    requires { (n ≤ length out.old) × ((i : ℕ) (none : T) → i < n → F.pre f i (get_or out.old i none)) }
    ensures each { (i : ℕ) (none : T) → i < n → F.post f i (get_or out.old i none) (get_or out.new i none) }
    ensures others { drop n out.new ≡ drop n out.old }
{
    for i in 0..n {
        out[i] = f(i, out[i]);
    }
}
