//! What of the words' options is built.

ghost use Rattle.std.specs.Prelude.{◌≡◌};
ghost use Rattle.std.specs.Option.{option_map};
ghost use Rattle.word_list.specs.Views.{plain_options};
ghost use Rattle.ytdl_core.specs.Built as spec;
ghost use Rattle.ytdl_core.specs.Views.{plain_command};

use job_plan::PlanOptions;
use text_base::Text;
use word_list::Options;

/// A command that is built: it shows the jobs of a file's items.
#[derive(Drop)]
pub struct Command {
    /// The file of information.
    pub info: Text,
    pub plan: PlanOptions,
    /// Whether nothing is said but what is printed.
    pub quiet: bool,
}

/// The command that options ask for, where it is built.
pub fn command_of(options: Options) -> Option<Command>
    ensures { option_map plain_command result ≡ spec.command_of (plain_options options) }
{
    if !is_built(&options) {
        return None;
    }
    let Options {
        plan,
        info,
        quiet,
        ..
    } = options;
    let Some(info) = info else { return None };
    Some(Command { info, plan, quiet })
}

/// Whether nothing is downloaded, and it is no self-test.
fn is_built(options: &Options) -> bool
    ensures { result ≡ spec.is_built (plain_options options.now) }
{
    options.simulate && options.selftest.is_none()
}
