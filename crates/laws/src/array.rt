// Arrays given by a function of the place.
ghost use Rattle.std.specs.Prelude.{◌≡◌, ℕ, ◌<◌, ◌≤◌, ltb};
ghost use Rattle.laws.specs.Tab.{tab, pick};

// `each` at the places below n, and `beyond` from there on.
pub fn tabulated<T: Copy, const N: usize, F: Fn(usize) -> T>(n: usize, beyond: T, each: F) -> [T; N]
    requires few { n ≤ N }
    requires callable { (i : ℕ) → i < n → F.pre each i }
    ensures { (f : ℕ → T) → ((i : ℕ) (x : T) → i < n → F.post each i x → x ≡ f i)
        → result ≡ tab N (λ i. pick (ltb i n) (f i) beyond) }
{
    let mut all = [beyond; N];
    for i in 0..n {
        all[i] = each(i);
    }
    all
}
