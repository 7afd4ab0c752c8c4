// Configuring: an image for one setting, as bytes.
#![tactic(auto)]

ghost use Rattle.std.specs.Prelude.{length};
ghost use Rattle.configure.specs.Configured.{space_rows, configure_rows, Configures};

mod sizes; // sizes.rt: how long the configured image is
mod write; // write.rt: its nodes

use image::accept::check;
use image::conditions::{all_settings, condition_sets};
use image::refusals::Refusal;
use image::routine::Routine;
use image::setting::Setting;
use image::words::{head_word, put};
use sizes::configured_size;
use write::write;

// The last test, 14, and the writing: header, then nodes. The answer is the length written.
fn configure_ready(setting: &Setting<'_>, out: &mut [u8]) -> Result<usize, Refusal>
    ensures { Configures (space_rows setting.now.routine.image.now setting.now.s (length out.old))
        setting.now.routine.image.now setting.now.s out.old out.new result }
{
    let nodes = setting.routine.nodes;
    let size = configured_size(setting);
    if out.len() < 8 + 8 * size {
        return Err(Refusal::SpaceShort);
    }
    put(out, 0, head_word(0, 0, size), 8);
    let written = write(setting, nodes - 1, 0, out);
    Ok(8 + 8 * written)
}

// "Configuring answers the length written": refusals 1 to 8, 11, 14.
pub fn configure(image: &[u8], setting: u64, out: &mut [u8]) -> Result<usize, Refusal>
    ensures { Configures (configure_rows image.now setting (length out.old)) image.now setting
        out.old out.new result }
{
    let shape = check(image)?;
    if !all_settings(shape.options).has(setting) {
        return Err(Refusal::SettingBeyond);
    }
    let sets = condition_sets(image, shape);
    let ready = Setting {
        routine: Routine::of(image, shape),
        sets: &sets,
        s: setting,
    };
    configure_ready(&ready, out)
}
