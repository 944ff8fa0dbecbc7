//! Asks the registry in a file, even if another process has the file.

use crate::beside::{TRIES, ask_server, busy, is_busy, pause, require_no_other};
use crate::ending::Ending;
use crate::opening::require_existing;
use crate::progress::{Progress, Work};
use crate::registries::Registries;
use registry_names::Text;
use registry_rules::{Reply, Request};
use std::alloc::Global;

/// What a command asks of the registry in a file: a request. A server is sent the arguments
/// instead, and the bytes of the file that they name.
#[derive(Clone, Copy)]
pub struct Question<'a> {
    /// The path of the file that keeps the registry.
    pub path: &'a str,
    /// Whether that file has to be there.
    pub existing: bool,
    /// What is asked of the registry itself.
    pub request: &'a Request,
    /// What is sent to a server.
    pub arguments: &'a [Text],
    /// The bytes that are sent with it.
    pub body: &'a [u8],
}

/// What is answered.
#[derive(Drop)]
pub enum Answer {
    /// The reply of the registry, which was opened.
    Reply(Reply),
    /// What a server of the file sent.
    Sent(Vec<u8>),
}

/// Asks the registry in a file, or the server that has the file. If another process has it and no
/// server answers, both are tried again, for five seconds. A file that has to be there isn't made: it is
/// looked at before each try.
pub fn answer_to<R: Registries>(
    rt: &HostRuntime,
    alloc: Global,
    registries: &mut R,
    question: Question<'_>,
) -> Result<Answer, Ending> {
    let Question {
        path,
        existing,
        request,
        arguments,
        body,
    } = question;
    require_no_other(rt, alloc, path)?;
    let _opening = Progress::begin(rt, Work::Opening, path);
    for _ in 0..TRIES {
        require_existing(rt, alloc, path, existing)?;
        let reply = registries.reply(rt, alloc, path, request);
        if !is_busy(&reply) {
            return Ok(Answer::Reply(reply?));
        }
        if let Some(bytes) = ask_server(rt, alloc, path, arguments, body)? {
            return Ok(Answer::Sent(bytes));
        }
        pause(rt);
    }
    Err(busy())
}
