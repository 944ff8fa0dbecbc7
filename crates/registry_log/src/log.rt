//! A log of what was answered.

ghost use Rattle.std.specs.Prelude.{◌≡◌, ◌≤◌, ◌-◌, ℕ, [], length, string_bytes, None, IfErr, IfOk, IfSome, if◌then◌else◌};
ghost use Rattle.registry_log.specs.Lines as lines;
ghost use Rattle.registry_log.specs.Logs as spec;
ghost use Rattle.registry_log.specs.Logs.{IsKept, IsNoted, IsPut, IsWritten, KeepsOthers, LacksUser, NamesTurn, NotesCommand, NotesTurn, Remembers, RemembersAll, Rests, SaysLine, logging, remembering, turn_line};
ghost use Rattle.registry_log.specs.Waitings.{queue};

use crate::entry::{Entry, Kind};
use crate::log_clock::LogClock;
use crate::sink::LineSink;
use crate::unnamed::{Unnamed, token_in};
use crate::waiting::Waiting;
use registry_names::{Blob, Fault, Ident, Moment, Text};
use registry_packument::moment_text;
use registry_publish::TokenDigest;
use registry_service::{AnsweredCommand, Turned};
use registry_wire::Wanted;
use std::alloc::{AllocError, Global};
use std::collections::VecDeque;
use std::marker::Model;
use std::mem;

/// A request that the registry is asked together with others: when, and by whom, if a user asks.
#[derive(Drop)]
pub(crate) struct Asked {
    pub(crate) at: Moment,
    pub(crate) user: Option<Ident>,
}

/// What the registry answered, and wasn't noted yet.
#[derive(Drop)]
struct Answered {
    at: Moment,
    user: Option<Ident>,
    micros: u64,
}

/// A log: lines that wait, and where they are written. No call of it fails: where there is no
/// memory for a line, or it can't be written, it is lost, and the log says how many were lost once
/// it can be written. Contracts see what waits, what was answered and is noted next, what was answered
/// together with it and is noted after it, and what was noted whose user isn't looked up yet.
#[derive(Drop)]
pub struct Log<K: LogClock, W: LineSink> {
    alloc: Global,
    clock: K,
    sink: W,
    waiting: Waiting,
    answered: Option<Answered>,
    // What was answered together with that, and for how long all of it was asked.
    later: VecDeque<Asked>,
    micros: u64,
    unnamed: Vec<Unnamed>,
    // Whether what was written last ended within a line.
    is_cut: bool,
}

impl<K: LogClock, W: LineSink> Model for Log<K, W> {
    ghost use Rattle.registry_log.specs.Logs.{Logging, answered_each, logging};

    ghost Value = { Logging };

    ghost view = { λ l. logging l.waiting l.answered (answered_each l.micros l.later.items)
        l.unnamed.items };
}

impl<K: LogClock + Drop, W: LineSink + Drop> Log<K, W> {
    /// A log in which nothing was written. An error is returned where no memory is left.
    pub fn new(alloc: Global, clock: K, sink: W) -> Result<Log<K, W>, AllocError>
        ensures { IfOk result (λ log. log ≡ logging (queue [] 0) None [] []) }
    {
        Ok(Log {
            alloc,
            clock,
            sink,
            waiting: Waiting::new(alloc)?,
            answered: None,
            later: VecDeque::new(alloc),
            micros: 0,
            unnamed: Vec::new(alloc),
            is_cut: false,
        })
    }
}

impl<K: LogClock, W: LineSink> Log<K, W> {
    /// Writes a line that isn't a request's, such as `2026-11-26T10:00:00.000Z # ended`, after what
    /// waits.
    pub fn say(&mut self, text: &str)
        ensures { SaysLine text.now self.old self.new }
    {
        let at = self.clock.moment();
        match said(self.alloc, at, text) {
            Ok(line) => self.add(line.as_bytes()),
            Err(_) => self.waiting.lose(1),
        }
        self.write();
    }

    /// The microseconds that the clock shows as the registry begins to answer a request, for
    /// [`answered`](Log::answered) or [`answered_together`](Log::answered_together).
    pub fn start_micros(&mut self) -> u64
        ensures { self.new ≡ self.old }
    {
        self.clock.micros()
    }

    /// The registry has answered a request, which was asked at `at`, by `user` if a user asked, and
    /// which it began to answer at `begun`.
    pub fn answered(&mut self, at: Moment, user: Option<Ident>, begun: u64)
        ensures { Remembers at user begun self.old self.new }
    {
        let micros = self.micros_since(begun);
        self.later.clear();
        self.answered = Some(Answered { at, user, micros });
    }

    /// The registry has answered these requests together, in this order, and began with that at
    /// `begun`. The next turns are theirs. Each line says for how long all of them were asked.
    pub(crate) fn answered_together(&mut self, asked: VecDeque<Asked>, begun: u64)
        ensures { RemembersAll asked.items begun self.old self.new }
    {
        self.micros = self.micros_since(begun);
        self.later = asked;
        self.answered = self.next_answered();
    }

    /// A turn was taken for this request, or for input that isn't one. Its line waits. Where the
    /// registry was asked, the line has the moment of that, the user and the time; otherwise it has
    /// the present moment. A request that has a token, and that the registry wasn't asked, is kept
    /// until its user is looked up. A line is lost where there is no memory or no room for it.
    pub fn note(&mut self, wanted: Option<&Wanted>, turned: &Turned)
        ensures { NotesTurn wanted.entry turned.now self.old self.new }
    {
        let answered = self.take_answered();
        let at = self.moment(&answered);
        match lacking(&answered, wanted) {
            Some(token) => self.keep(at, token, wanted, turned),
            None => self.put_turn(at, &answered, wanted, turned),
        }
    }

    /// A command beside the server was answered. Its line, at the present moment, waits. It is lost
    /// where there is no memory or no room for it.
    pub fn note_command(&mut self, command: &AnsweredCommand<'_>)
        ensures { NotesCommand command.now self.old self.new }
    {
        let answered = self.take_answered();
        let at = self.clock.moment();
        match command_line(self.alloc, at, &answered, command) {
            Ok(line) => self.add(line.as_slice()),
            Err(_) => self.waiting.lose(1),
        }
    }

    /// The requests whose users are to be looked up, in their order. They aren't kept any more.
    pub(crate) fn take_unnamed(&mut self) -> Vec<Unnamed>
        ensures taken { result.items ≡ self.old.unnamed }
        ensures left { self.new
            ≡ logging self.old.waiting self.old.answered self.old.later [] }
    {
        mem::replace(&mut self.unnamed, Vec::new(self.alloc))
    }

    /// The user of a request was looked up, and its line waits. It is lost where there is no memory or
    /// no room for it.
    pub(crate) fn name(&mut self, unnamed: &Unnamed, user: &Option<Ident>)
        ensures { NamesTurn unnamed.now user.now self.old self.new }
    {
        match unnamed.line(self.alloc, user_text(user)) {
            Ok(line) => self.add(line.as_slice()),
            Err(_) => self.waiting.lose(1),
        }
    }

    /// A round of turns is over: what waits is written.
    pub fn rest(&mut self)
        ensures { Rests self.old self.new }
    {
        // What was answered and isn't noted by now has no line.
        self.answered = None;
        self.later.clear();
        self.write();
    }

    // For how many microseconds the registry was asked.
    fn micros_since(&mut self, begun: u64) -> u64
        ensures micros { (now : ℕ) × (result ≡ now - begun) }
        ensures keeps { self.new ≡ self.old }
    {
        self.clock.micros().saturating_sub(begun)
    }

    // What was answered and is to be noted now. What was answered together with it is noted next.
    fn take_answered(&mut self) -> Option<Answered>
        ensures taken { result ≡ self.old.answered }
        ensures left { self.new
            ≡ remembering self.old.later self.old.waiting self.old.unnamed }
    {
        let next = self.next_answered();
        mem::replace(&mut self.answered, next)
    }

    // The first of what is noted later, which it isn't any more.
    fn next_answered(&mut self) -> Option<Answered>
        ensures next { result ≡ spec.first self.old.later }
        ensures left { self.new
            ≡ logging self.old.waiting self.old.answered (spec.rest self.old.later)
            self.old.unnamed }
    {
        let asked = self.later.pop_front()?;
        Some(Answered {
            at: asked.at,
            user: asked.user,
            micros: self.micros,
        })
    }

    // The line of a turn waits, or is lost.
    fn put_turn(
        &mut self,
        at: Moment,
        answered: &Option<Answered>,
        wanted: Option<&Wanted>,
        turned: &Turned,
    )
        ensures noted { IsNoted (turn_line at answered.now wanted.entry turned.now)
            self.old.waiting self.new.waiting }
        ensures keeps { KeepsOthers self.old self.new }
    {
        match line(self.alloc, at, answered, wanted, turned) {
            Ok(line) => self.add(line.as_slice()),
            Err(_) => self.waiting.lose(1),
        }
    }

    // A turn is kept until its user is looked up, or its line is lost.
    fn keep(&mut self, at: Moment, token: TokenDigest, wanted: Option<&Wanted>, turned: &Turned)
        ensures kept { IsKept (spec.unnamed_turn at token wanted.entry turned.now)
            self.old self.new }
        ensures answered { self.new.answered ≡ self.old.answered }
        ensures later { self.new.later ≡ self.old.later }
    {
        let Ok(unnamed) = unnamed(self.alloc, at, token, wanted, turned) else {
            self.waiting.lose(1);
            return;
        };
        if self.unnamed.push(unnamed).is_err() {
            self.waiting.lose(1);
        }
    }

    // The moment at which the registry was asked, or the present one where it wasn't.
    fn moment(&mut self, answered: &Option<Answered>) -> Moment
        ensures asked { IfSome answered.now (λ a. result ≡ a.at) }
        ensures keeps { self.new ≡ self.old }
    {
        match answered {
            Some(answered) => answered.at,
            None => self.clock.moment(),
        }
    }

    // A line waits. Where there is no room for it, what waits is written first.
    fn add(&mut self, line: &[u8])
        ensures put { IsPut line.now self.old.waiting self.new.waiting }
        ensures keeps { KeepsOthers self.old self.new }
    {
        if !self.waiting.has_room(line.len()) {
            self.write();
        }
        self.waiting.add(line);
    }

    // Writes what waits, and before it how many lines were lost, if some were. Where that can't be
    // said, what waits is lost, too.
    fn write(&mut self)
        ensures written { IsWritten self.old.waiting self.new.waiting }
        ensures keeps { KeepsOthers self.old self.new }
    {
        let written = if self.tell_lost() {
            put(&mut self.sink, &mut self.is_cut, self.waiting.as_slice())
        } else {
            0
        };
        self.waiting.settle(written);
    }

    // Says how many lines were lost, if some were: whether that is done.
    fn tell_lost(&mut self) -> bool
        ensures told { self.new.waiting
            ≡ (if result then queue self.old.waiting.bytes 0 else self.old.waiting) }
        ensures keeps { KeepsOthers self.old self.new }
    {
        let lost = self.waiting.lost();
        if lost == 0 {
            return true;
        }
        let at = self.clock.moment();
        let Ok(line) = lost_line(self.alloc, at, lost, self.is_cut) else {
            return false;
        };
        let count = put(&mut self.sink, &mut self.is_cut, line.as_bytes());
        if count < line.len() {
            return false;
        }
        self.waiting.tell();
        true
    }
}

// Writes bytes after what is written, if there are some, and sees whether that ends within a line.
fn put<W: LineSink>(sink: &mut W, is_cut: &mut bool, bytes: &[u8]) -> usize
    ensures { result ≤ length bytes.now }
{
    if bytes.is_empty() {
        return 0;
    }
    let count = sink.append(bytes);
    if let Some(last) = bytes[..count].last() {
        *is_cut = *last != b'\n';
    }
    count
}

// The line of a turn at this moment.
fn line(
    alloc: Global,
    at: Moment,
    answered: &Option<Answered>,
    wanted: Option<&Wanted>,
    turned: &Turned,
) -> Result<Vec<u8>, Fault>
    ensures ok { IfOk result (λ line.
        line.items ≡ turn_line at answered.now wanted.entry turned.now) }
    ensures err { IfErr result (λ fault. fault ≡ Fault.Memory) }
{
    let entry = Entry {
        at,
        user: user_in(answered),
        kind: kind_in(wanted),
        target: target_in(wanted),
        status: turned.answer.status.as_u16(),
        length: turned.answer.body.len() as u64,
        micros: micros_in(answered),
    };
    entry.line(alloc)
}

// The token of a request whose user isn't known, as the registry wasn't asked.
fn lacking(answered: &Option<Answered>, wanted: Option<&Wanted>) -> Option<TokenDigest>
    ensures { LacksUser answered.now wanted.entry result }
{
    match (answered, wanted) {
        (None, Some(wanted)) => token_in(&wanted.authorization),
        _ => None,
    }
}

// A turn whose user is to be looked up.
fn unnamed(
    alloc: Global,
    at: Moment,
    token: TokenDigest,
    wanted: Option<&Wanted>,
    turned: &Turned,
) -> Result<Unnamed, AllocError>
    ensures { IfOk result (λ u. u ≡ spec.unnamed_turn at token wanted.entry turned.now) }
{
    Ok(Unnamed {
        at,
        token,
        kind: kind_in(wanted),
        target: Blob::from_slice(alloc, target_in(wanted))?,
        status: turned.answer.status.as_u16(),
        length: turned.answer.body.len() as u64,
    })
}

// The line of a command at this moment.
fn command_line(
    alloc: Global,
    at: Moment,
    answered: &Option<Answered>,
    command: &AnsweredCommand<'_>,
) -> Result<Vec<u8>, Fault>
    ensures { IfOk result (λ line. line.items ≡ spec.command_line at answered.now command.now) }
{
    let words = joined(alloc, command.words)?;
    let entry = Entry {
        at,
        user: command.caller,
        kind: Kind::Command,
        target: words.as_slice(),
        status: u16::from(command.status),
        length: command.length,
        micros: micros_in(answered),
    };
    entry.line(alloc)
}

// Words, with a `/` before each.
fn joined(alloc: Global, words: &[Text]) -> Result<Vec<u8>, AllocError>
    ensures { IfOk result (λ text. text.items ≡ lines.joined words.now) }
{
    let mut text = Vec::new(alloc);
    for word in words {
        text.push(b'/')?;
        text.extend_from_slice(word.as_str().as_bytes())?;
    }
    Ok(text)
}

// The user who asked. Empty where the registry wasn't asked, or not by a user.
fn user_in(answered: &Option<Answered>) -> &str
    ensures { result.now ≡ spec.user_in answered.now }
{
    match answered {
        Some(answered) => user_text(&answered.user),
        None => "",
    }
}

// The name of a user, or nothing.
fn user_text(user: &Option<Ident>) -> &str
    ensures { result.now ≡ spec.name_in user.now }
{
    match user {
        Some(user) => user.text(),
        None => "",
    }
}

// For how many microseconds the registry was asked, if it was.
fn micros_in(answered: &Option<Answered>) -> Option<u64>
    ensures { result ≡ spec.micros_in answered.now }
{
    match answered {
        Some(answered) => Some(answered.micros),
        None => None,
    }
}

// A request with its method, if one was read.
fn kind_in(wanted: Option<&Wanted>) -> Kind
    ensures { result ≡ spec.kind_in wanted.entry }
{
    match wanted {
        Some(wanted) => Kind::Request(wanted.method),
        None => Kind::Unread,
    }
}

// Its target, if one was read.
fn target_in<'a>(wanted: Option<&'a Wanted>) -> &'a [u8]
    ensures { result.now ≡ spec.target_in wanted.entry }
{
    match wanted {
        Some(wanted) => wanted.target.as_slice(),
        None => b"",
    }
}

// A line that isn't a request's.
fn said(alloc: Global, at: Moment, text: &str) -> Result<String, Fault>
    ensures { IfOk result (λ line. string_bytes line ≡ spec.said_line at text.now) }
{
    let at = moment_text(alloc, at)?;
    Ok(format!(in alloc; "{} # {}\n", at.as_str(), text)?)
}

// The line that says how many lines were lost. Where what is written ends within a line, that line
// is ended first.
fn lost_line(alloc: Global, at: Moment, lost: u64, is_cut: bool) -> Result<String, Fault>
    ensures { IfOk result (λ line. string_bytes line ≡ spec.lost_line at lost is_cut) }
{
    let before = if is_cut { "\n" } else { "" };
    let at = moment_text(alloc, at)?;
    Ok(format!(in alloc; "{}{} # lost lines: {}\n", before, at.as_str(), lost)?)
}
