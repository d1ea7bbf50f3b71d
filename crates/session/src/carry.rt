//! Commands of a script, carried out.
ghost use Rattle.std.specs.Prelude.{◌≡◌, ◌≤◌, IfOk, OnErr, [], Some};
ghost use Rattle.std.specs.Option.{option_map};
ghost use Rattle.std.specs.Vec.{vec_capacity};
ghost use Rattle.lifecycle.specs.Commands as commands;
ghost use Rattle.lifecycle.specs.Views.{world_of};
ghost use Rattle.script.specs.Requests as requests;
ghost use Rattle.session.specs.Commands.{IsRecordOf, Means, alone};
ghost use Rattle.session.specs.Wants.{WantsMemory};
ghost use Rattle.session.specs.inner.Carried.{CarriesOut, Fits, Replies, id_in, program_in};

use crate::bundles::Bundles;
use call_record::Record;
use lifecycle::{Command, Reply, Runtime};
use machines::Arch;
use processes::Response;
use script::{Hex, MAX_LINE, Request};
use shared_table::SharedTable;
use std::alloc::{AllocError, Global};

/// Containers, and the bundles of which a script makes them.
#[derive(Drop)]
pub(crate) struct Session<'a> {
    pub(crate) bundles: Bundles<'a>,
    pub(crate) runtime: Runtime<'a, SharedTable>,
    // What holds the program of a call while it is presented.
    program: Vec<u8>,
    ghost room: { 35000 ≤ vec_capacity program },
}

/// The id that a request names.
pub(crate) fn id_named<'a>(request: &Request<'a>) -> &'a str
    ensures { result.now ≡ id_in (requests.command_of request.now) }
{
    match *request {
        Request::Create { id, .. } => id,
        Request::Start { id } => id,
        Request::Delete { id } => id,
        Request::State { id } => id,
        Request::Kill { id, .. } => id,
        Request::Call { id, .. } => id,
    }
}

// The record of a call.
fn record_of(arch: Arch, nr: u32, args: [u64; 6]) -> Record
    ensures { IsRecordOf arch nr args result }
{
    record_with(arch.token(), nr, args)
}

// The record of a call with a token.
fn record_with(token: u32, nr: u32, args: [u64; 6]) -> Record
    ensures number { result.nr ≡ nr }
    ensures token { result.arch ≡ token }
    ensures pointer { result.ip ≡ 0 }
    ensures arguments { result.args ≡ args }
{
    Record {
        nr,
        arch: token,
        ip: 0,
        args,
    }
}

// The program beside what is asked for, if it is a call with one.
fn program_beside<'a>(request: &Request<'a>) -> Option<Hex<'a>>
    ensures { option_map requests.bytes_of result ≡ program_in (requests.command_of request.now) }
{
    match *request {
        Request::Create { .. } => None,
        Request::Start { .. } => None,
        Request::Delete { .. } => None,
        Request::State { .. } => None,
        Request::Kill { .. } => None,
        Request::Call { program, .. } => program,
    }
}

// A command that is no call: none with a response.
fn unless_answered<'a, 'c>(
    command: Command<'a, 'c>,
    response: Option<Response>,
) -> Option<Command<'a, 'c>>
    ensures { option_map commands.command_of result ≡ alone response (Some (commands.command_of command.entry)) }
{
    match response {
        None => Some(command),
        Some(_) => None,
    }
}

// The command that is asked for, with the bytes of its program and what a listener responds. There is none if it names no
// bundle that is there, or if a response stands beside no call.
fn command_of<'a, 'c, 'r: 'c>(
    bundles: &Bundles<'a>,
    request: &Request<'r>,
    program: Option<&'c [u8]>,
    response: Option<Response>,
) -> Option<Command<'a, 'c>>
    requires { option_map (λ p. p.now) program ≡ program_in (requests.command_of request.now) }
    ensures { Means bundles.now (requests.command_of request.now) response (option_map commands.command_of result) }
{
    match *request {
        Request::Create { id, bundle } => {
            let checked = bundles.find(bundle)?;
            unless_answered(Command::Create(id, checked), response)
        }
        Request::Start { id } => unless_answered(Command::Start(id), response),
        Request::Delete { id } => unless_answered(Command::Delete(id), response),
        Request::State { id } => unless_answered(Command::State(id), response),
        Request::Kill { id, signal } => unless_answered(Command::Kill(id, signal), response),
        Request::Call {
            id,
            task,
            arch,
            nr,
            args,
            ..
        } => Some(Command::Call(id, task, record_of(arch, nr, args), program, response)),
    }
}

// Carries out a command, if there is one.
fn obey<'a>(
    runtime: &mut Runtime<'a, SharedTable>,
    command: Option<Command<'a, '_>>,
) -> Result<Option<Reply>, AllocError>
    ensures done { IfOk result (Replies (option_map commands.command_of command.entry) (world_of runtime.old) (world_of runtime.new)) }
    ensures kept { OnErr result (world_of runtime.new ≡ world_of runtime.old) }
    ensures wants { OnErr result (WantsMemory (option_map commands.command_of command.entry) (world_of runtime.old)) }
{
    match command {
        None => Ok(None),
        Some(command) => Ok(Some(runtime.carry_out(command)?)),
    }
}

impl<'a> Session<'a> {
    /// No containers, and room for the longest program of a line.
    pub(crate) fn new(alloc: Global, bundles: Bundles<'a>) -> Result<Session<'a>, AllocError>
        ensures bundles { IfOk result (λ s. s.bundles ≡ bundles.entry) }
        ensures world { IfOk result (λ s. world_of s.runtime ≡ []) }
    {
        let program = Vec::with_capacity(alloc, MAX_LINE / 2)?;
        Ok(Session {
            bundles,
            runtime: Runtime::new(alloc, SharedTable::new(alloc)),
            program,
        })
    }

    /// Carries out what a line asks for, with the response beside it, if it is a command.
    pub(crate) fn carry_out(
        &mut self,
        request: &Request<'_>,
        response: Option<Response>,
    ) -> Result<Option<Reply>, AllocError>
        requires { Fits (requests.command_of request.now) }
        ensures bundles { self.new.bundles ≡ self.old.bundles }
        ensures done { CarriesOut self.old.bundles (requests.command_of request.now) response
            (world_of self.old.runtime) (world_of self.new.runtime) result }
    {
        match program_beside(request) {
            None => obey(
                &mut self.runtime,
                command_of(&self.bundles, request, None, response),
            ),
            Some(hex) => {
                hex.put_into(&mut self.program);
                let bytes = self.program.as_slice();
                obey(
                    &mut self.runtime,
                    command_of(&self.bundles, request, Some(bytes), response),
                )
            }
        }
    }
}
