// Reading the report's input: numbers "most significant first".
ghost use Rattle.std.specs.Prelude.{◌≡◌, ◌≤◌, length};
ghost use Rattle.lines.specs.Text.{set_in, budget_in};

use image::number_at;

// "the set in 8 bytes and the budget in 4"
pub fn set_in(input: &[u8]) -> u64
    requires { 12 ≤ length input.now }
    ensures { result ≡ set_in input.now }
{
    number_at(input, 0, 8)
}

pub fn budget_in(input: &[u8]) -> u32
    requires { 12 ≤ length input.now }
    ensures { result ≡ budget_in input.now }
{
    number_at(input, 8, 4) as u32
}
