//! What a service is told of a command that was answered.

ghost use Rattle.std.specs.Prelude.{◌≡◌};
ghost use Rattle.registry_guests.specs.Notes as spec;

use crate::command_output::CommandOutput;
use registry_cli::{Line, Who};
use registry_names::Text;
use registry_service::{AnsweredCommand, Service};

/// The longest name of a user.
const LONGEST_NAME: usize = 64;

/// How many characters the shortest token has.
const SHORTEST_TOKEN: usize = 16;

/// Tells a service of a command that is answered with this output, which is returned.
pub(crate) fn noted<D: Service>(
    service: &mut D,
    caller: &str,
    words: &[Text],
    output: CommandOutput,
) -> CommandOutput
    ensures output { result ≡ output }
    ensures service { service.new ≡ service.old }
{
    let length = output.text_len() as u64;
    service.note_command(&AnsweredCommand {
        caller,
        words,
        status: output.status(),
        length: length.saturating_add(output.end().len() as u64),
    });
    output
}

/// Who asks by a line: `operator` where it names no user. Empty for a name that is too long for a
/// user's, or may be a token of npm's.
pub(crate) fn caller_of(line: &Line) -> &str
    ensures { result.now ≡ spec.caller_of line.now.who }
{
    match &line.who {
        Who::Operator | Who::Anonymous => "operator",
        Who::User(name) if may_be_shown(name.as_str()) => name.as_str(),
        Who::User(_) => "",
    }
}

fn may_be_shown(name: &str) -> bool
    ensures { result ≡ spec.may_be_shown name.now }
{
    name.len() <= LONGEST_NAME && (is_short(name) || !name.starts_with("npm_"))
}

// Whether a word is shorter than any token.
fn is_short(word: &str) -> bool
    ensures { result ≡ spec.is_short word.now }
{
    word.len() < SHORTEST_TOKEN
}

/// The words of a line that may be seen: all, except of a subcommand about tokens. Of such a one it is
/// the name, and the word after it where that is too short for a token.
pub(crate) fn seen_words(line: &Line) -> &[Text]
    ensures { result.now ≡ spec.seen_words line.now.what }
{
    let words = line.what.as_slice();
    match words {
        [name, first, ..] if name.as_str().starts_with("token") => {
            if is_short(first.as_str()) {
                &words[..2]
            } else {
                &words[..1]
            }
        }
        _ => words,
    }
}
