//! What a request came to, with a document that may lie in two pieces.

ghost use Rattle.std.specs.Prelude.{◌≡◌, ◌++◌, Ok, option_map};
ghost use Rattle.registry_service.specs.HttpAnswers.{fronted_text};
ghost use Rattle.registry_service.specs.Told.{document_in};
ghost use Rattle.registry_service.specs.Turns.{end_of};

use crate::answer::Fronted;
use crate::turning::{End, end_after_reply, end_of};
use registry_names::Fault;
use registry_rules::Reply;
use std::marker::Model;

/// The outcome of a request. Where it is a document, that may lie in two pieces, so that a shared
/// text needn't be copied behind a front. Contracts see the outcome, with the document as one text.
#[derive(Drop)]
pub struct Told {
    pub(crate) what: What,
}

#[derive(Drop)]
pub(crate) enum What {
    Outcome(Result<Reply, Fault>),
    Fronted(Fronted),
}

impl Model for Told {
    ghost use Rattle.registry_service.specs.HttpAnswers.{Outcome};
    ghost use Rattle.registry_service.specs.Told.{outcome_in};

    ghost Value = { Outcome };

    ghost view = { λ told. outcome_in told.what };
}

impl Told {
    /// This outcome.
    pub fn of(outcome: Result<Reply, Fault>) -> Told
        ensures { result ≡ outcome }
    {
        Told {
            what: What::Outcome(outcome),
        }
    }

    /// The document that a front and a shared text are.
    pub fn fronted(fronted: Fronted) -> Told
        ensures { result ≡ Ok (Reply.Doc (fronted_text fronted)) }
    {
        Told {
            what: What::Fronted(fronted),
        }
    }

    /// The bytes of the document, in two pieces. `None` for any other outcome.
    pub fn pieces(&self) -> Option<(&[u8], &[u8])>
        ensures { option_map (λ p. p.0.now ++ p.1.now) result ≡ document_in self.now }
    {
        match &self.what {
            What::Outcome(Ok(Reply::Doc(text))) => Some((text.as_str().as_bytes(), b"")),
            What::Outcome(_) => None,
            What::Fronted(fronted) => Some(fronted.pieces()),
        }
    }

    /// How the connection ends after it, if it does.
    pub(crate) fn end(&self, is_last: bool, closes: bool) -> Option<End>
        ensures { result ≡ end_of self.now is_last closes }
    {
        match &self.what {
            What::Outcome(outcome) => end_of(outcome, is_last, closes),
            What::Fronted(_) => end_after_reply(is_last, closes),
        }
    }
}
