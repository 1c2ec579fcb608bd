// Files that are written for commands to read.
ghost use Rattle.std.specs.Prelude.{◌≡◌, ◌∷◌, length, nat_lt};
ghost use Rattle.std.specs.Option.{option_map};
ghost use Rattle.kc_kit_files.specs.Reads.{file_limit};
ghost use Rattle.kc_kit_files.specs.Writes.{first_long, writing_readable};
ghost use Rattle.kc_kit_running.specs.Writing.{written};
ghost use Rattle.kc_kit_answer.specs.Jobs.{IsPrepared, maybe_written};

use crate::job::Job;
use kc_base::FILE_LIMIT;
use kc_kit_files::{Refusal, long_output};
use kc_kit_running::Output;
use std::alloc::Global;

fn is_long(file: &Output<'_>) -> bool
    ensures { result ≡ nat_lt file_limit (length file.now.bytes.items) }
{
    FILE_LIMIT < file.bytes.len()
}

// The name of the first of these files that is longer than commands read.
fn first_long<'a>(file: &Output<'a>, lines: &Option<Output<'a>>) -> Option<&'a str>
    ensures { option_map (λ n. n.now) result ≡ first_long (written file.now ∷ maybe_written lines.now) }
{
    if is_long(file) {
        return Some(file.name);
    }
    match lines {
        Some(lines) if is_long(lines) => Some(lines.name),
        _ => None,
    }
}

/// Writing a file that commands read, and others where there are: a line map, which commands read too, and a map or a listing,
/// which none reads; or the refusal of the first that is longer than commands read.
pub(crate) fn writing<'a>(
    alloc: Global,
    file: Output<'a>,
    lines: Option<Output<'a>>,
    map: Option<Output<'a>>,
) -> Result<Job<'a>, Refusal>
    ensures { IsPrepared (λ response. response ≡ writing_readable (written file.entry ∷ maybe_written lines.entry) (maybe_written map.entry)) result }
{
    match first_long(&file, &lines) {
        Some(name) => Err(long_output(alloc, name)),
        None => Ok(Job::Write { file, lines, map }),
    }
}
