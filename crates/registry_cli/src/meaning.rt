//! What a command line means.

ghost use Rattle.std.specs.Prelude.{◌≡◌, option_map};
ghost use Rattle.registry_cli.specs.Lines as spec;

use crate::argument_values::{argument_at, is_same, says_input};
use crate::arguments::Arguments;
use registry_names::{Moment, Text};

/// Who asks by a line.
#[derive(Debug, Drop)]
pub enum Who {
    /// The operator, who runs the registry.
    Operator,
    /// The user of this name, if there is one.
    User(Text),
    /// Somebody without a credential.
    Anonymous,
}

/// What a command line means.
#[derive(Debug, Drop)]
pub struct Line {
    /// The path of the file that keeps the registry.
    pub db: Text,
    /// Whether that file has to be there: none is made.
    pub existing: bool,
    /// Who asks.
    pub who: Who,
    /// When it is asked. `None` where the machine's clock says it.
    pub at: Option<Moment>,
    /// The subcommand's name and its arguments in their order, with the defaults of those that were
    /// left out. For `serve` these are the port and the number of connections.
    pub what: Arguments,
}

impl Line {
    /// Whether the line asks to serve, and so for no action.
    pub fn asks_to_serve(&self) -> bool
        ensures { result ≡ spec.asks_to_serve self.now.what }
    {
        is_same(argument_at(self.what.as_slice(), 0), "serve")
    }

    /// Whether an action is read from standard input: the token that `token-rm -` ends.
    pub fn reads_input(&self) -> bool
        ensures { result ≡ spec.reads_input self.now.what }
    {
        let arguments = self.what.as_slice();
        is_same(argument_at(arguments, 0), "token-rm") && says_input(arguments)
    }

    /// The path of the file that the line names, from which an action is read. `None` for every
    /// subcommand except `publish`.
    pub fn file(&self) -> Option<&str>
        ensures { option_map (λ path. path.now) result ≡ spec.file_of self.now.what }
    {
        let arguments = self.what.as_slice();
        if is_same(argument_at(arguments, 0), "publish") {
            Some(argument_at(arguments, 1))
        } else {
            None
        }
    }
}
