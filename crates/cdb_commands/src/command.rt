ghost use Rattle.std.specs.Prelude.{◌≡◌, IfOk, false};
ghost use Rattle.clap.specs.Words.{app_of, rule_of};
ghost use Rattle.cdb_commands.specs.OptionCommand.{option_rule, options_app};

use clap::{Arg, Command};
use std::alloc::{AllocError, Global};

/// An option that takes a value.
fn option<'a>(alloc: Global, name: &'a str) -> Arg<'a>
    ensures rule { rule_of result ≡ option_rule name.entry.now }
    ensures local { result.global ≡ false }
{
    Arg::new(alloc, name).long(name)
}

/// The command of the four options, whose words don't hold the program's name. It has no flag for
/// help or the version.
pub fn command<'a>(alloc: Global) -> Result<Command<'a>, AllocError>
    ensures { IfOk result (λ command. app_of command ≡ options_app) }
{
    let bare = Command::new(alloc, "cdb")
        .no_binary_name(true)
        .disable_help_flag(true);
    let one = bare.arg(option(alloc, "mode"))?;
    let two = one.arg(option(alloc, "background"))?;
    let three = two.arg(option(alloc, "start"))?;
    three.arg(option(alloc, "count"))
}
