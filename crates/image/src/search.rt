// The search for the lowest number that is bad, whatever makes it so.
ghost use Rattle.std.specs.Prelude.{◌≡◌, ℕ, Bool, ◌<◌};
ghost use Rattle.image.specs.Rows.{lowest};

// The lowest k below n that is bad, and n where none is: by the number, and n for none, as `lowest` of specs/Rows has it.
pub fn lowest<F: Fn(usize) -> bool>(n: usize, bad: F) -> usize
    requires { (k : ℕ) → k < n → F.pre bad k }
    ensures { (is_bad : ℕ → Bool) → ((k : ℕ) (r : Bool) → k < n → F.post bad k r → r ≡ is_bad k) → result ≡ lowest n is_bad }
{
    for k in 0..n {
        if bad(k) {
            return k;
        }
    }
    n
}
