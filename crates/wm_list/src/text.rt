//! A string that contracts see as the list of its bytes.
ghost use Rattle.std.specs.Prelude.{◌≡◌, string_bytes};

use std::marker::Model;

/// A string that contracts see as the list of its UTF-8 bytes.
///
/// It is made from a `String` and gives it back without allocating.
#[derive(Drop)]
pub struct Text {
    characters: String,
}

impl Model for Text {
    ghost use Rattle.std.specs.Prelude.{ℕ, List, string_bytes};

    ghost Value = { List ℕ };

    ghost view = { λ a. string_bytes a.characters };
}

impl Text {
    /// The text of a string, which is moved in.
    pub fn from_string(characters: String) -> Self
        ensures { result ≡ string_bytes characters }
    {
        Text { characters }
    }

    /// The string.
    pub fn into_string(self) -> String
        ensures { string_bytes result ≡ self }
    {
        let Text { characters } = self;
        characters
    }

    /// The characters.
    pub fn as_str(&self) -> &str
        ensures { result.now ≡ self.now }
    {
        self.characters.as_str()
    }
}
