//! The head of a response that a packument is.

ghost use Rattle.std.specs.Prelude.{◌≡◌};
ghost use Rattle.registry_wire.specs.Responses as wire;

use registry_names::{Fault, Text};
use registry_packument::Opener;
use std::alloc::Global;

/// The head of a response whose body is a packument. It says whether the connection ends after it.
#[derive(Clone, Copy, Debug)]
pub(crate) struct Heading {
    pub(crate) closes: bool,
}

impl Opener for Heading {
    ghost use Rattle.registry_service.specs.HttpAnswers.{document_head};

    ghost opens = { λ heading. document_head heading.closes };

    fn opening(&self, alloc: Global, len: u64) -> Result<Text, Fault> {
        let head = format!(in alloc;
            "HTTP/1.1 200 OK\r\ncontent-type: application/json\r\ncontent-length: {len}\r\n{}\r\n",
            close_line(self.closes)
        )?;
        Ok(Text::from(head))
    }
}

// The line that says that the connection ends, if it does.
fn close_line(closes: bool) -> &'static str
    ensures { result.now ≡ wire.close_line closes }
{
    if closes { "connection: close\r\n" } else { "" }
}
