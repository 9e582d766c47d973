//! A reader of the tokens of a document. It takes them straight from the bytes, without an index of them. What it
//! doesn't take isn't always wrong: it takes no string with an escape, and no number with a sign, a fraction or an
//! exponent.
ghost use Rattle.std.specs.Prelude.{◌≡◌, ◌≤◌, ◌∷◌, [], Some, IfSome, IsTrue, drop, length, true};
ghost use Rattle.std.specs.Bool.{MatchBool};
ghost use Rattle.std.specs.List.{prefix_len};
ghost use Rattle.std.specs.Char.{is_ascii_digit};
ghost use Rattle.json.specs.Json.{after_end_array};
ghost use Rattle.json.specs.Lex.{after_value, between, lex, punctuate, tokens};
ghost use Rattle.json.specs.Run.{is_plain};
ghost use Rattle.json.specs.Token.{begin_array, end_array, number, string};
ghost use Rattle.json.specs.Word.{ends_word, head, is_space};
ghost use Rattle.wm_logfile.specs.TokensLeft.{begins_at, closes_at, tokens_left, EndsItem};

use std::marker::Model;

/// What may come next.
#[derive(Clone, Copy, Drop)]
enum Place {
    /// A value, or the end of a list.
    Fresh,
    /// The end of a list.
    AfterValue,
    /// A value.
    AfterComma,
}

impl Place {
    /// Whether a value may come next.
    #[inline(always)]
    fn may_begin(self) -> bool
        ensures { result ≡ begins_at self }
    {
        matches!(self, Place::Fresh | Place::AfterComma)
    }

    /// Whether a list may end.
    #[inline(always)]
    fn may_close(self) -> bool
        ensures { result ≡ closes_at self }
    {
        matches!(self, Place::Fresh | Place::AfterValue)
    }
}

/// Whether the byte is a blank of JSON.
#[inline(always)]
fn is_blank(byte: u8) -> bool
    ensures { result ≡ is_space byte }
{
    byte == b' ' || byte == b'\t' || byte == b'\n' || byte == b'\r'
}

/// The text after its first blanks.
#[cold]
#[inline(never)]
#[tactic(auto, using(crate::proofs::Bytes::blank_passed))]
fn after_many_blanks(text: &[u8]) -> &[u8]
    ensures { lex between result.now ≡ lex between text.now }
{
    let mut rest = text;
    while !rest.is_empty() && is_blank(rest[0]) {
        rest = &rest[1..];
    }
    rest
}

/// The text after its first blanks. Most places have none.
#[inline(always)]
fn after_blanks(text: &[u8]) -> &[u8]
    ensures { lex between result.now ≡ lex between text.now }
{
    if !text.is_empty() && text[0] <= b' ' {
        return after_many_blanks(text);
    }
    text
}

/// Whether the text begins with the byte.
#[inline(always)]
#[tactic(auto, using(crate::proofs::Bytes::first_and_rest))]
fn begins_with(text: &[u8], byte: u8) -> bool
    ensures some { IsTrue result → 1 ≤ length text.now }
    ensures first { IsTrue result → text.now ≡ byte ∷ drop 1 text.now }
{
    !text.is_empty() && text[0] == byte
}

/// The text after a value and the comma that may follow it, and what may come next.
#[inline(always)]
#[tactic(auto, using(crate::proofs::Bytes::comma_left, crate::proofs::Bytes::value_left))]
fn after_comma(text: &[u8]) -> (&[u8], Place)
    ensures { tokens_left result.1 result.0.now ≡ punctuate after_value (lex between text.now) }
{
    let rest = after_blanks(text);
    if begins_with(rest, b',') {
        (&rest[1..], Place::AfterComma)
    } else {
        (rest, Place::AfterValue)
    }
}

/// How many digits the text begins with.
#[inline(always)]
fn digits_end(text: &[u8]) -> usize
    ensures value { result ≡ prefix_len is_ascii_digit text.now }
    ensures bound { result ≤ length text.now }
{
    let mut end = 0;
    while end < text.len() && text[end].is_ascii_digit() {
        end += 1;
    }
    end
}

/// How many bytes of the text come before the first quote, backslash or control character.
#[inline(always)]
fn plain_end(text: &[u8]) -> usize
    ensures value { result ≡ prefix_len is_plain text.now }
    ensures bound { result ≤ length text.now }
{
    let mut end = 0;
    while end < text.len() && text[end] != b'"' && text[end] != b'\\' && text[end] >= 0x20 {
        end += 1;
    }
    end
}

/// Whether a word ends before this text. A word also ends before some other texts, which no list has.
#[inline(always)]
fn ends_here(text: &[u8]) -> bool
    ensures { IsTrue result → ends_word text.now ≡ true }
{
    text.is_empty() || text[0] == b',' || text[0] == b']' || is_blank(text[0])
}

/// Whether the text begins with a comma or the end of a list.
#[inline(always)]
fn ends_item(text: &[u8]) -> bool
    ensures { IsTrue result → EndsItem text.now }
{
    begins_with(text, b',') || begins_with(text, b']')
}

/// Whether these digits are a number: there are some, and a zero doesn't come before others.
#[inline(always)]
fn are_whole(digits: &[u8]) -> bool
    ensures some { IsTrue result → 1 ≤ length digits.now }
    ensures alone { IsTrue result → head digits.now ≡ 48 → length digits.now ≡ 1 }
{
    digits.len() == 1 || (digits.len() > 1 && digits[0] != b'0')
}

/// The tokens of a text that are left.
#[derive(Drop)]
pub(crate) struct Reader<'a> {
    rest: &'a [u8],
    place: Place,
}

impl<'a> Model for Reader<'a> {
    ghost use Rattle.std.specs.Prelude.{List};
    ghost use Rattle.json.specs.Token.{Token, tokens_code};
    ghost use Rattle.wm_logfile.specs.TokensLeft.{tokens_left};

    ghost Value = { List Token };

    ghost coded = { tokens_code };

    ghost view = { λ a. tokens_left a.place a.rest.now };
}

impl<'a> Reader<'a> {
    /// All tokens of a text.
    pub(crate) fn new(text: &'a [u8]) -> Reader<'a>
        ensures { result ≡ tokens text.now }
    {
        Reader {
            rest: text,
            place: Place::Fresh,
        }
    }

    /// How many bytes of the text are left.
    #[inline(always)]
    pub(crate) fn bytes_left(&self) -> usize {
        self.rest.len()
    }

    /// Whether no token is left.
    #[tactic(auto, using(crate::proofs::Bytes::none_left))]
    pub(crate) fn is_at_end(&self) -> bool
        ensures { IsTrue result → self.now ≡ [] }
    {
        self.place.may_close() && after_blanks(self.rest).is_empty()
    }

    /// Takes the bracket that opens a list, if it is next.
    #[inline(always)]
    #[tactic(auto, using(crate::proofs::Bytes::begin_left))]
    pub(crate) fn take_begin_array(&mut self) -> bool
        ensures { IsTrue result → self.old ≡ begin_array ∷ self.new }
    {
        let text = after_blanks(self.rest);
        if !begins_with(text, b'[') || !self.place.may_begin() {
            return false;
        }
        self.rest = &text[1..];
        self.place = Place::Fresh;
        true
    }

    /// Takes the bracket that closes a list, if it is next.
    #[inline(always)]
    #[tactic(auto, using(crate::proofs::Bytes::end_left))]
    pub(crate) fn take_end_array(&mut self) -> bool
        ensures { MatchBool result (after_end_array self.old ≡ Some self.new) (self.new ≡ self.old) }
    {
        let text = after_blanks(self.rest);
        if !begins_with(text, b']') || !self.place.may_close() {
            return false;
        }
        let (rest, place) = after_comma(&text[1..]);
        self.rest = rest;
        self.place = place;
        true
    }

    /// Takes both brackets of an empty list, if one is next.
    #[inline(always)]
    pub(crate) fn take_empty_array(&mut self) -> bool
        ensures { MatchBool result (self.old ≡ begin_array ∷ end_array ∷ self.new) (self.new ≡ self.old) }
    {
        let text = after_blanks(self.rest);
        if !begins_with(text, b'[') || !self.place.may_begin() {
            return false;
        }
        let inside = after_blanks(&text[1..]);
        if !begins_with(inside, b']') {
            return false;
        }
        let (rest, place) = after_comma(&inside[1..]);
        self.rest = rest;
        self.place = place;
        true
    }

    /// Takes the digits of a number, if one is next and is only digits.
    #[inline(always)]
    #[tactic(auto, using(crate::proofs::Bytes::digits_left))]
    pub(crate) fn take_digits(&mut self) -> Option<&'a [u8]>
        ensures { IfSome result (λ s. self.old ≡ number s.now ∷ self.new) }
    {
        let text = after_blanks(self.rest);
        let (digits, rest) = text.split_at(digits_end(text));
        if !are_whole(digits) || !ends_here(rest) || !self.place.may_begin() {
            return None;
        }
        let (rest, place) = after_comma(rest);
        self.rest = rest;
        self.place = place;
        Some(digits)
    }

    /// Takes a string in a list, if one is next and has no escapes.
    #[inline(always)]
    #[tactic(auto, using(crate::proofs::Bytes::plain_left))]
    pub(crate) fn take_plain(&mut self) -> Option<&'a str>
        ensures { IfSome result (λ s. self.old ≡ string s.now ∷ self.new) }
    {
        let text = after_blanks(self.rest);
        if !begins_with(text, b'"') || !self.place.may_begin() {
            return None;
        }
        let text = &text[1..];
        let (plain, rest) = text.split_at(plain_end(text));
        if !begins_with(rest, b'"') {
            return None;
        }
        let rest = after_blanks(&rest[1..]);
        if !ends_item(rest) {
            return None;
        }
        let Ok(plain) = std::str::from_utf8(plain) else {
            return None;
        };
        let (rest, place) = after_comma(rest);
        self.rest = rest;
        self.place = place;
        Some(plain)
    }
}
