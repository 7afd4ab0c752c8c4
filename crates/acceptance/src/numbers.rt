// The numbers that a store starts with.
ghost use Rattle.std.specs.Prelude.{◌≡◌, ◌+◌, ◌≤◌, length};
ghost use Rattle.acceptance.specs.Inner.Comparing.{first, starts};

use imp::signed;

// The number that place k of the store starts with, another one for each place: 0 and -2147483648 in setting 0, -1 and 2147483647 in setting 1.
#[tactic(auto, unfolding(crate::specs::Inner::Comparing::first))]
fn first(k: usize) -> i32
    ensures { result ≡ first k }
{
    let n = (k % 16) * 0x3000_0000 + (k / 16 % 64) * 0xFFFF_FFFF;
    signed((n % 0x1_0000_0000) as u32)
}

// The numbers that the places from `at` on start with.
pub fn fill(at: usize, numbers: &mut [i32])
    requires { at + length numbers.old ≤ 1024 }
    ensures { numbers.new ≡ starts at (length numbers.old) }
{
    for (v, number) in numbers.iter_mut().enumerate() {
        *number = first(at + v);
    }
}
