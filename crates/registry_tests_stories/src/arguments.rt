//! The arguments that a command line spells.

use registry_names::Text;
use std::alloc::{AllocError, Global};
use std::mem;

/// The arguments of a command, and the file that it reads as standard input.
#[derive(Drop)]
pub struct Arguments {
    pub texts: Vec<Text>,
    pub input: Option<String>,
}

/// Splits a command line at its spaces. Spaces inside `'..'` or `".."` belong to an argument, and
/// `< FILE` names the input.
pub fn arguments_of(alloc: Global, line: &str) -> Result<Arguments, AllocError> {
    let mut splitter = Splitter::new(alloc);
    for letter in line.chars() {
        splitter.take(alloc, letter)?;
    }
    splitter.end_word(alloc)?;
    Ok(splitter.done)
}

/// What a line has given so far.
#[derive(Drop)]
struct Splitter {
    done: Arguments,
    argument: String,
    /// Whether the argument has a letter or quotes.
    is_begun: bool,
    /// Whether the argument has quotes.
    is_quoted: bool,
    /// The quotes that are still open.
    quote: Option<char>,
    /// Whether the next argument names the input.
    is_input: bool,
}

impl Splitter {
    fn new(alloc: Global) -> Splitter {
        Splitter {
            done: Arguments {
                texts: Vec::new(alloc),
                input: None,
            },
            argument: String::new(alloc),
            is_begun: false,
            is_quoted: false,
            quote: None,
            is_input: false,
        }
    }

    fn take(&mut self, alloc: Global, letter: char) -> Result<(), AllocError> {
        match self.quote {
            Some(quote) if quote == letter => {
                self.quote = None;
                Ok(())
            }
            None if letter == '\'' || letter == '"' => {
                self.quote = Some(letter);
                self.is_quoted = true;
                self.is_begun = true;
                Ok(())
            }
            None if letter == ' ' => self.end_word(alloc),
            _ => {
                self.is_begun = true;
                self.argument.push(letter)
            }
        }
    }

    // The argument ends here, if there is one.
    fn end_word(&mut self, alloc: Global) -> Result<(), AllocError> {
        if !self.is_begun {
            return Ok(());
        }
        let argument = mem::replace(&mut self.argument, String::new(alloc));
        let names_input = argument.as_str() == "<" && !self.is_quoted;
        self.is_begun = false;
        self.is_quoted = false;
        if self.is_input {
            self.done.input = Some(argument);
        } else if !names_input {
            self.done.texts.push(Text::from(argument))?;
        }
        self.is_input = names_input;
        Ok(())
    }
}
