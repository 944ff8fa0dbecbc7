//! What is logged of a request or of a command.

ghost use Rattle.std.specs.Prelude.{◌≡◌, ◌++◌, IfErr, IfOk};
ghost use Rattle.registry_log.specs.Lines as spec;
ghost use Rattle.registry_log.specs.Lines.{line_of};

use crate::column::{push_cell, push_number, push_time};
use crate::target::push_target;
use registry_names::{Fault, Method, Moment};
use registry_packument::moment_text;
use std::alloc::Global;

/// The room that is reserved for a line at first.
const LINE_ROOM: usize = 256;

/// What was answered.
#[derive(Clone, Copy)]
pub enum Kind {
    /// A request with this method.
    Request(Method),
    /// A command beside the server.
    Command,
    /// Input that isn't a request, or that couldn't be read.
    Unread,
}

/// What is known of a request, of a command, or of input that is neither, once it was answered.
#[derive(Clone, Copy)]
pub struct Entry<'a> {
    /// When it was asked.
    pub at: Moment,
    /// Who asked: of a request the user whose token it had, empty where it had no token, or one that
    /// isn't a user's; of a command `operator`, or the user it names.
    pub user: &'a str,
    pub kind: Kind,
    /// The target of a request, escapes and query included. Of a command its words, with a `/` before
    /// each. Empty where nothing was read.
    pub target: &'a [u8],
    /// The status of the response, or the exit status of a command.
    pub status: u16,
    /// How many bytes the body of the response has, or a command prints.
    pub length: u64,
    /// For how many microseconds the registry was asked. `None` where it wasn't asked.
    pub micros: Option<u64>,
}

impl Entry<'_> {
    /// Its line: the moment, the user, the method or `command`, the target, the status, the length
    /// and the time in milliseconds, with a space between them and a newline at the end. `-` stands
    /// for what isn't known, and `***` for every part of a target that may be a token. At most 512
    /// bytes of a target are put, and `...` stands for the others.
    ///
    /// `Memory` is returned where no memory is left.
    pub fn line(&self, alloc: Global) -> Result<Vec<u8>, Fault>
        ensures ok { IfOk result (λ line. line.items ≡ line_of self.now) }
        ensures err { IfErr result (λ fault. fault ≡ Fault.Memory) }
    {
        let at = moment_text(alloc, self.at)?;
        let mut line = Vec::with_capacity(alloc, LINE_ROOM)?;
        push_cell(&mut line, at.as_str().as_bytes())?;
        push_cell(&mut line, self.user.as_bytes())?;
        push_cell(&mut line, kind_text(self.kind))?;
        push_target(&mut line, self.target)?;
        push_number(&mut line, u64::from(self.status))?;
        push_number(&mut line, self.length)?;
        push_time(&mut line, self.micros)?;
        Ok(line)
    }
}

fn kind_text(kind: Kind) -> &'static [u8]
    ensures { result.now ≡ spec.kind_text kind }
{
    match kind {
        Kind::Request(Method::Get) => b"GET",
        Kind::Request(Method::Put) => b"PUT",
        Kind::Request(Method::Post) => b"POST",
        Kind::Request(Method::Delete) => b"DELETE",
        Kind::Command => b"command",
        Kind::Request(Method::Other) | Kind::Unread => b"",
    }
}
