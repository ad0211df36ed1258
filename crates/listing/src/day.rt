// A day that was read.
ghost use Rattle.std.specs.Prelude.{true, ◌≡◌, ◌*◌, ◌≤◌, length};
ghost use Rattle.section.specs.Numbers.{step_length};
ghost use Rattle.section.specs.Settings.{settings_in_range};
ghost use Rattle.layout.specs.Layout.{most_steps};

use section::Settings;

#[derive(Clone, Copy)]
pub(crate) struct Day<'a> {
    pub(crate) settings: Settings,
    pub(crate) steps: &'a [u8],
    pub(crate) count: usize,
    ghost in_range: { settings_in_range settings ≡ true },
    ghost few: { count ≤ most_steps },
    ghost whole: { step_length * count ≤ length steps.now },
}
