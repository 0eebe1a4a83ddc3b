//! The lines of a schedule by their numbers.
ghost use Rattle.std.specs.Prelude.{◌≡◌, ◌<◌, length};
ghost use Rattle.patch_layout.specs.Items.{init_line, merge_line, read_line};

use schedule_reader::{InitItem, MergeItem, ReadItem, Schedule};

/// The preparation of this number.
pub fn init_line(schedule: &Schedule, number: u32) -> &InitItem
    requires { number < length schedule.now.inits }
    ensures { result.now ≡ init_line schedule.now number }
{
    &schedule.inits[number as usize]
}

/// The reading of this number.
pub fn read_line(schedule: &Schedule, number: u32) -> &ReadItem
    requires { number < length schedule.now.reads }
    ensures { result.now ≡ read_line schedule.now number }
{
    &schedule.reads[number as usize]
}

/// The merge of this number.
pub fn merge_line(schedule: &Schedule, number: u32) -> &MergeItem
    requires { number < length schedule.now.merges }
    ensures { result.now ≡ merge_line schedule.now number }
{
    &schedule.merges[number as usize]
}
