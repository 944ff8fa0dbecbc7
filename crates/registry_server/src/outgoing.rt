//! The part of a response that isn't sent yet.

ghost use Rattle.std.specs.Prelude.{◌≡◌, ◌≤◌, ◌-◌, ◌++◌, ◌==◌, [], length, drop};
ghost use Rattle.registry_service.specs.Servings.{bytes_of};
ghost use Rattle.registry_server.specs.ConnectionStates as spec;

use registry_service::Turned;
use registry_wire::{Response, ShortText};
use std::marker::Model;

/// The part of a turn's response that isn't sent: its head, which lies in the value itself, and its
/// body as the answer holds it. No memory is taken for it. Contracts see the bytes that are left.
#[derive(Drop)]
pub struct Outgoing {
    head: ShortText,
    turned: Option<Turned>,
    // It may be more than a `usize` holds, as far as the lengths of three pieces show.
    sent: u128,
}

impl Model for Outgoing {
    ghost use Rattle.std.specs.Prelude.{◌≤◌, ◌++◌, List, ℕ, drop, length};
    ghost use Rattle.registry_server.specs.ConnectionStates.{body_in};

    ghost Value = { List ℕ };

    ghost view = { λ u. drop u.sent (u.head ++ body_in u.turned) };

    ghost invariant = { λ u. u.sent ≤ length (u.head ++ body_in u.turned) };
}

impl Outgoing {
    /// Nothing.
    pub fn none() -> Outgoing
        ensures { result ≡ [] }
    {
        Outgoing {
            head: ShortText::new(),
            turned: None,
            sent: 0,
        }
    }

    /// The whole response of a turn.
    pub fn of(turned: Turned) -> Outgoing
        ensures { result ≡ bytes_of turned }
    {
        let head = head_of(&turned);
        Outgoing {
            head,
            turned: Some(turned),
            sent: 0,
        }
    }

    /// Whether no byte is left.
    pub fn is_empty(&self) -> bool
        ensures { result ≡ (length self.now == 0) }
    {
        let (head, body, rest) = self.parts();
        head.is_empty() && body.is_empty() && rest.is_empty()
    }

    /// What is left of the head, of the first piece of the body, and of the rest of it.
    pub fn parts(&self) -> (&[u8], &[u8], &[u8])
        ensures { result.0.now ++ result.1.now ++ result.2.now ≡ self.now }
    {
        let (body, rest) = body_in(&self.turned);
        left_of(self.head.as_slice(), body, rest, self.sent)
    }

    /// This many more bytes were sent. Once all are sent, the memory of the body is given back.
    pub fn advance(&mut self, count: usize)
        requires { count ≤ length self.old }
        ensures { self.new ≡ drop count self.old }
    {
        let total = total(&self.head, &self.turned);
        self.sent += count as u128;
        if self.sent == total {
            *self = Outgoing::none();
        }
    }
}

/// What is left of a head, of the first piece of a body, and of the rest of it, of which so many
/// bytes were sent together.
pub fn left_of<'a>(
    head: &'a [u8],
    body: &'a [u8],
    rest: &'a [u8],
    sent: u128,
) -> (&'a [u8], &'a [u8], &'a [u8])
    ensures { result.0.now ++ result.1.now ++ result.2.now
        ≡ drop sent (head.now ++ (body.now ++ rest.now)) }
{
    let (head, over) = left_of_piece(head, sent);
    let (body, over) = left_of_piece(body, over);
    let (rest, _) = left_of_piece(rest, over);
    (head, body, rest)
}

// What is left of a piece of which so many bytes were sent, and how many were sent of what follows.
fn left_of_piece(piece: &[u8], sent: u128) -> (&[u8], u128)
    ensures left { result.0.now ≡ drop sent piece.now }
    ensures over { result.1 ≡ sent - length piece.now }
{
    let len = piece.len() as u128;
    let (_, left) = piece.split_at(sent.min(len) as usize);
    (left, sent.saturating_sub(len))
}

// Both pieces of what is sent of the body of a turn's answer.
fn body_in(turned: &Option<Turned>) -> (&[u8], &[u8])
    ensures { result.0.now ++ result.1.now ≡ spec.body_in turned.now }
{
    match turned {
        Some(turned) => turned.answer.pieces(),
        None => (&[], &[]),
    }
}

// How many bytes the response has.
fn total(head: &ShortText, turned: &Option<Turned>) -> u128
    ensures { result ≡ length (head.now ++ spec.body_in turned.now) }
{
    let (body, rest) = body_in(turned);
    head.as_slice().len() as u128 + body.len() as u128 + rest.len() as u128
}

fn head_of(turned: &Turned) -> ShortText
    ensures { result ≡ spec.head_in turned.now }
{
    let answer = &turned.answer;
    let (body, rest) = answer.body.as_slices();
    let response = Response {
        status: answer.status,
        kind: answer.kind,
        labels: &answer.labels,
        body,
        rest,
        closes: turned.end.is_some(),
    };
    response.head()
}
