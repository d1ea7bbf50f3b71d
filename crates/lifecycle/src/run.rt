//! One command, and whole runs.
ghost use Rattle.std.specs.Prelude.{◌≡◌, ◌<◌, [], IfOk, OnOk, OnErr, length, take};
ghost use Rattle.processes.specs.First.{by_profile, by_program};
ghost use Rattle.lifecycle.specs.Commands.{command_of};
ghost use Rattle.lifecycle.specs.Growth.{MayGrow, NextMayGrow};
ghost use Rattle.lifecycle.specs.Promises.{RefusesIn};
ghost use Rattle.lifecycle.specs.Runs.{EachRunsAlone, IsRun, commands_of};
ghost use Rattle.lifecycle.specs.Steps.{step};

use crate::command::{Command, Reply};
use crate::runtime::Runtime;
use processes::Kernel;
use std::alloc::AllocError;

impl<'a, K: Kernel> Runtime<'a, K> {
    ghost use Rattle.lifecycle.specs.Views.{world_of};

    /// Carries out one command. It is a step of the kernel in which a container's profile decides what its first filter
    /// answers. It is also a step of the kernel in which the filter's program decides it. Where memory is refused it is
    /// left undone.
    pub fn carry_out(&mut self, command: Command<'a, '_>) -> Result<Reply, AllocError>
        ensures headline { IfOk result (λ r. (r, world_of self.new) ≡ step by_profile (command_of command.entry) (world_of self.old)) }
        ensures step { IfOk result (λ r. (r, world_of self.new) ≡ step by_program (command_of command.entry) (world_of self.old)) }
        ensures err { OnErr result (world_of self.new ≡ world_of self.old) }
        ensures growth { OnErr result (MayGrow (command_of command.entry) (world_of self.old)) }
    {
        match command {
            Command::Create(id, checked) => self.create(id, checked),
            Command::Start(id) => self.start(id),
            Command::Kill(id, sig) => Ok(self.kill(id, sig)),
            Command::Delete(id) => Ok(self.delete(id)),
            Command::State(id) => Ok(self.state(id)),
            Command::Call(id, task, rec, attached, response) => {
                self.call(id, task, &rec, attached, response)
            }
        }
    }

    /// Carries out commands one after another. Where memory is refused it stops, with the replies so far: the command after them is
    /// left undone.
    ///
    /// The replies, and the world after them, are those of a run in which a container's profile decides what its first
    /// filter answers. With the program of the filter in the profile's place it is the same run. So a call that a profile
    /// refuses is not carried out, unless a listener may continue it, and a call that no filter refuses is.
    pub fn run(&mut self, commands: &[Command<'a, '_>]) -> (Vec<Reply>, Result<(), AllocError>)
        ensures headline { IsRun by_profile (commands_of (take (length result.0.items) commands.now)) (world_of self.old) result.0.items (world_of self.new) }
        ensures so_far { IsRun by_program (commands_of (take (length result.0.items) commands.now)) (world_of self.old) result.0.items (world_of self.new) }
        ensures refused { world_of self.old ≡ [] → RefusesIn (commands_of (take (length result.0.items) commands.now)) result.0.items }
        ensures all { OnOk result.1 (length result.0.items ≡ length commands.now) }
        ensures left { OnErr result.1 (length result.0.items < length commands.now) }
        ensures growth { OnErr result.1 (NextMayGrow (commands_of commands.now) result.0.items (world_of self.new)) }
        ensures alone { EachRunsAlone by_profile (commands_of (take (length result.0.items) commands.now)) (world_of self.old) result.0.items }
    {
        let mut replies = Vec::new(self.alloc);
        if commands.is_empty() {
            return (replies, Ok(()));
        }
        if replies.reserve(commands.len()).is_err() {
            return (replies, Err(AllocError));
        }
        for command in commands {
            match self.carry_out(*command) {
                Ok(reply) => replies.push_reserved(reply),
                Err(error) => return (replies, Err(error)),
            }
        }
        (replies, Ok(()))
    }
}
