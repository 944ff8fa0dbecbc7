//! Lists of texts.

ghost use Rattle.std.specs.Prelude.{◌≡◌, ◌++◌, ◌∷◌, [], List, ℕ, string_bytes, OnOk};

use registry_names::Text;
use std::alloc::{AllocError, Global};
use std::marker::Model;

/// Texts in their order. Contracts see the list of them.
#[derive(Debug, Drop)]
pub struct Arguments {
    texts: Vec<Text>,
}

impl Model for Arguments {
    ghost use Rattle.std.specs.Prelude.{List, ℕ};

    ghost Value = { List (List ℕ) };

    ghost view = { λ w. w.texts.items };
}

impl Arguments {
    /// The texts themselves.
    pub fn as_slice(&self) -> &[Text]
        ensures { result.now ≡ self.now }
    {
        self.texts.as_slice()
    }
}

impl From<Vec<Text>> for Arguments {
    ghost from_gives = { λ texts arguments. arguments ≡ texts.items };

    fn from(texts: Vec<Text>) -> Arguments {
        Arguments { texts }
    }
}

// Puts a word at the end.
pub(crate) fn push_word(words: &mut Vec<Text>, word: String) -> Result<(), AllocError>
    ensures { OnOk result (words.new.items ≡ words.old.items ++ string_bytes word ∷ []) }
{
    Ok(words.push(Text::from(word))?)
}

// Puts a copy of a text at the end.
pub(crate) fn push_text(alloc: Global, words: &mut Vec<Text>, text: &str) -> Result<(), AllocError>
    ensures { OnOk result (words.new.items ≡ words.old.items ++ text.now ∷ []) }
{
    push_word(words, String::from_str(alloc, text)?)
}
