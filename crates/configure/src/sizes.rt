// How many nodes the configured routine has, before a byte of it is written: a size for each node, bottom up.
ghost use Rattle.std.specs.Prelude.{◌≡◌, true, cond, ◌-◌, ◌<◌, length, get_or};
ghost use Rattle.image.specs.Layout.{names_node};
ghost use Rattle.image.specs.Term.{size};
ghost use Rattle.configure.specs.Inner.Term.{term_at};
ghost use Rattle.configure.specs.Inner.Sizing.{Sizing};

use image::kinds::{OF_A, OF_B, is_choice, layout, names_node};
use image::setting::Setting;

// The size of the child that a field names; none, where it names no node.
fn slot_size(slot: u32, value: usize, sizes: &[usize]) -> usize
    requires { names_node slot ≡ true → value < length sizes.now }
    ensures { result ≡ cond (names_node slot) (get_or sizes.now value 0) 0 }
{
    if names_node(slot) { sizes[value] } else { 0 }
}

// The size of node n's configured term, from the sizes of the nodes before it.
fn size_of(setting: &Setting<'_>, n: usize, sizes: &[usize]) -> usize
    requires { Sizing setting.now.routine.image.now setting.now.s n sizes.now }
    ensures { result ≡ size (term_at setting.now.routine.image.now setting.now.s n) }
{
    let node = setting.routine.node(n);
    if is_choice(node.kind) {
        let part = setting.chosen(node);
        return sizes[part];
    }
    let digits = layout(node.kind);
    let in_a = slot_size(digits / OF_A % 8, node.a, sizes);
    let in_b = slot_size(digits / OF_B % 8, node.b, sizes);
    let in_c = slot_size(digits % 8, node.c, sizes);
    in_a + in_b + in_c + 1
}

// The size of the whole configured routine.
pub fn configured_size(setting: &Setting<'_>) -> usize
    ensures { result ≡ size (term_at setting.now.routine.image.now setting.now.s (setting.now.routine.nodes - 1)) }
{
    let nodes = setting.routine.nodes;
    let mut sizes = [0usize; 1024];
    // An index, since each size is made of those that the array already holds; the lister's `fill` is of no crate below this one.
    for n in 0..nodes {
        sizes[n] = size_of(setting, n, &sizes);
    }
    sizes[nodes - 1]
}
