// The value of an expression in a setting, straight from the image: arithmetic and booleans call each other, over node numbers that fall.
// A setting is lent, here and where statements are run: by value its seven words would be copied for every node. What a choice asks of it is
// read before the node, once for a whole chain of choices.
ghost use Rattle.std.specs.Prelude.{◌≡◌};
ghost use Rattle.imp.specs.Shared.{value_in, truth_in};
ghost use Rattle.image.specs.Tree.{read};
ghost use Rattle.plain.specs.Inner.Evaluating.{Evaluating};

use image::kinds::Kind;
use image::setting::Setting;
use imp::{less, signed, sum};

// "An arithmetic pick holds a boolean, and a boolean less holds arithmetic, so each is defined through the other."
#[cycle(arithmetic_boolean)]
pub fn arithmetic(setting: &Setting<'_>, n: usize, numbers: &[i32]) -> i32
    requires { Evaluating setting.now.routine.image.now n 1 numbers.now }
    ensures { result ≡ value_in setting.now.s (read setting.now.routine.image.now n).arithmetic numbers.now }
{
    let sets = setting.sets;
    let s = setting.s;
    let node = setting.routine.node(n);
    match node.kind() {
        Kind::Number => signed(node.value),
        Kind::Variable => numbers[node.variable],
        Kind::Sum => {
            let a = arithmetic(setting, node.a, numbers);
            let b = arithmetic(setting, node.b, numbers);
            sum(a, b)
        }
        Kind::Pick => {
            let test = boolean(setting, node.a, numbers);
            arithmetic(setting, node.side(test), numbers)
        }
        _ => arithmetic(setting, node.chosen(sets, s), numbers),
    }
}

#[cycle(arithmetic_boolean)]
pub fn boolean(setting: &Setting<'_>, n: usize, numbers: &[i32]) -> bool
    requires { Evaluating setting.now.routine.image.now n 2 numbers.now }
    ensures { result ≡ truth_in setting.now.s (read setting.now.routine.image.now n).boolean numbers.now }
{
    let sets = setting.sets;
    let s = setting.s;
    let node = setting.routine.node(n);
    match node.kind() {
        Kind::False => false,
        Kind::True => true,
        Kind::Not => !boolean(setting, node.a, numbers),
        Kind::And => {
            let a = boolean(setting, node.a, numbers);
            let b = boolean(setting, node.b, numbers);
            a & b
        }
        Kind::Less => {
            let a = arithmetic(setting, node.a, numbers);
            let b = arithmetic(setting, node.b, numbers);
            less(a, b)
        }
        _ => boolean(setting, node.chosen(sets, s), numbers),
    }
}
