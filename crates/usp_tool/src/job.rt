//! What a command needs, made once, and its work on an input.
ghost use Rattle.std.specs.Prelude.{◌≡◌, IfOk};
ghost use Rattle.std.specs.Option.{option_map};
ghost use Rattle.usp_tool.specs.Answers.{WorksInput};
ghost use Rattle.usp_tool.specs.Job.{job_of, job_value};
ghost use Rattle.usp_tool.specs.Outcome.{IsOwn};
ghost use Rattle.usp_tool.specs.Words.{in_bytes};

use crate::check::check;
use crate::input::is_long_input;
use crate::memory::NoMemory;
use crate::output::{Outcome, refusal};
use crate::sign::sign;
use crate::words::Command;
use std::alloc::Global;
use usp_conf::Conf;
use usp_ext::Kit;
use usp_jws::Key;
use usp_package::AttrName;

/// A command with what it needs.
#[derive(Drop)]
pub enum Job<'a> {
    /// Judges each line under the configuration.
    Check(&'a Conf),
    /// Signs each line with the key, and embeds under the name.
    Sign(&'a AttrName, &'a Key),
}

/// The job of a command under a configuration. None exactly where that lacks the key of `sign`.
pub fn job_of<'a>(command: &Command<'_>, conf: &'a Conf) -> Option<Job<'a>>
    ensures { option_map job_value result ≡ job_of (in_bytes command.now) conf.now }
{
    match command {
        Command::Check { .. } => Some(Job::Check(conf)),
        Command::Sign { kid, .. } => {
            let profile = conf.site().profile();
            let key = profile.ring.named(kid.as_bytes())?;
            Some(Job::Sign(&profile.attribute, key))
        }
    }
}

/// The work of a job on an input.
pub fn work(alloc: Global, kit: &Kit, job: &Job<'_>, input: &[u8]) -> Result<Outcome, NoMemory>
    ensures works { IfOk result (λ outcome. WorksInput (job_value job.now) input.now outcome) }
    ensures own { IfOk result (λ outcome. IsOwn outcome.status) }
{
    if is_long_input(input) {
        return refusal(alloc, b"input");
    }
    match job {
        Job::Check(conf) => check(alloc, kit, conf, input),
        Job::Sign(attribute, key) => sign(alloc, attribute, key, input),
    }
}
