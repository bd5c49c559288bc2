// From text to tokens.
// A value's text is cut at its first dot: a number has none, so that is the only cut that can do. Behind `title:` a run is words, so
// there is no value of titles.
ghost use Rattle.std.specs.Prelude.{◌≡◌, ℕ, ◌+◌, ◌-◌, ◌<◌, ◌≤◌, length, take, drop, true, false, get_or, codes, nat_eq, option_map, IsTrue, IfOk};
ghost use Rattle.std.specs.List.{prefix_len, take_while, position_or_len, starts_with, ends_with};
ghost use Rattle.std.specs.Str.{IsCharBoundary};
ghost use Rattle.alta_machine.specs.Token.{side_of, atom_weight};
ghost use Rattle.alta_machine.specs.Spots.{is_blank, is_solid, is_quote, is_run, first_token, first_len, run_token, plain_token, prefix_token, words_token, name_token, near_token, quoted_token, quoted_len, value_token, ordered, is_undotted};
ghost use Rattle.alta_query.specs.Fronts.{IsFront};
ghost use Rattle.alta_query.specs.Pieces.{token_of, atom_in, side_in};

use crate::word::{count_words, has_short_words, is_whole_word};
use alta_codec::{name_ok, read_count};
use alta_machine::{Cause, number};
use std::alloc::{AllocError, Global};

/// An operand of one token, whose text is lent.
#[derive(Clone, Copy)]
pub enum Lent<'a> {
    Words { title: bool, text: &'a str },
    Prefix { title: bool, stem: &'a str },
    Name { name: &'a str },
    Value { low: u32, high: u32 },
}

/// What may stand beside a NEAR.
#[derive(Clone, Copy)]
pub enum LentSide<'a> {
    Word(&'a str),
    Stem(&'a str),
}

/// A token.
#[derive(Clone, Copy)]
pub enum Kind<'a> {
    Open,
    Close,
    And,
    Or,
    Not,
    Near(u16),
    Operand(Lent<'a>),
    Faulty(Cause),
}

/// A token, and how many bytes it takes.
#[derive(Clone, Copy)]
pub struct Piece<'a> {
    pub kind: Kind<'a>,
    pub len: usize,
}

impl<'a> Lent<'a> {
    /// The operand as a side of a NEAR.
    #[tactic(auto, using(crate::proofs::Sides::laws))]
    pub fn side(self) -> Option<LentSide<'a>>
        ensures { option_map side_in result ≡ side_of (atom_in self.entry) }
    {
        match self {
            Lent::Words { title: false, text } if count_words(text) == 1 => Some(LentSide::Word(
                text,
            )),
            Lent::Prefix { title: false, stem } => Some(LentSide::Stem(stem)),
            _ => None,
        }
    }

    /// How many words the operand counts.
    pub fn weight(self) -> usize
        ensures { result ≡ atom_weight (atom_in self.entry) }
    {
        match self {
            Lent::Words { text, .. } => count_words(text),
            _ => 1,
        }
    }
}

/// Whether a byte is a space or a tab.
pub fn blank(b: u8) -> bool
    ensures { result ≡ is_blank b }
{
    b == b' ' || b == b'\t'
}

/// The token at the front of the text, which is no blank. Fails for want of memory alone.
#[tactic(auto, unfolding(alta_machine::specs::Spots::is_quoted_title), using(crate::proofs::Cuts::laws))]
pub fn first_piece(alloc: Global, rest: &str) -> Result<Piece<'_>, AllocError>
    requires some { 0 < length rest.now }
    requires solid { is_blank (get_or rest.now 0 0) ≡ false }
    ensures token { IfOk result (λ piece. token_of piece.kind ≡ first_token rest.now) }
    ensures len { IfOk result (λ piece. piece.len ≡ first_len rest.now) }
    ensures within { IfOk result (λ piece. piece.len ≤ length rest.now) }
    ensures positive { IfOk result (λ piece. 0 < piece.len) }
    ensures boundary { IfOk result (λ piece. IsCharBoundary rest.now piece.len) }
{
    let first = rest.as_bytes()[0];
    if first == b'(' {
        Ok(Piece {
            kind: Kind::Open,
            len: 1,
        })
    } else if first == b')' {
        Ok(Piece {
            kind: Kind::Close,
            len: 1,
        })
    } else if first == b'"' {
        let piece = quoted(alloc, false, behind(rest, 1))?;
        Ok(Piece {
            kind: piece.kind,
            len: 1 + piece.len,
        })
    } else if begins(rest, "name:") {
        let name = solid_run(behind(rest, 5));
        Ok(Piece {
            kind: named(name),
            len: 5 + name.len(),
        })
    } else if begins(rest, "title:\"") {
        let piece = quoted(alloc, true, behind(rest, 7))?;
        Ok(Piece {
            kind: piece.kind,
            len: 7 + piece.len,
        })
    } else {
        let text = run_of(rest);
        Ok(Piece {
            kind: run(alloc, text)?,
            len: text.len(),
        })
    }
}

/// The text from a place on.
fn behind(text: &str, place: usize) -> &str
    requires { IsCharBoundary text.now place }
    ensures { result.now ≡ drop place text.now }
{
    &text[place..]
}

/// The text up to a place.
fn before(text: &str, place: usize) -> &str
    requires { IsCharBoundary text.now place }
    ensures { result.now ≡ take place text.now }
{
    &text[..place]
}

/// Whether the text begins so.
fn begins(text: &str, head: &str) -> bool
    ensures value { result ≡ starts_with nat_eq text.now head.now }
    ensures boundary { IsTrue result → IsCharBoundary text.now (length head.now) }
{
    text.as_bytes().starts_with(head.as_bytes())
}

/// Whether the text ends with a `*`.
fn starred(text: &str) -> bool
    ensures value { result ≡ ends_with nat_eq text.now (codes "*") }
    ensures boundary { IsTrue result → IsCharBoundary text.now (length text.now - 1) }
{
    text.as_bytes().ends_with(b"*".as_slice())
}

/// A quoted piece, behind its first quote.
#[tactic(auto, unfolding(alta_machine::specs::Spots::quoted_token, alta_machine::specs::Spots::quoted_len), using(crate::proofs::Cuts::laws))]
fn quoted(alloc: Global, title: bool, rest: &str) -> Result<Piece<'_>, AllocError>
    ensures token { IfOk result (λ piece. token_of piece.kind ≡ quoted_token title rest.now) }
    ensures len { IfOk result (λ piece. piece.len ≡ quoted_len rest.now) }
    ensures within { IfOk result (λ piece. piece.len ≤ length rest.now) }
    ensures boundary { IfOk result (λ piece. IsCharBoundary rest.now piece.len) }
{
    let end = quote_place(rest);
    if end < rest.len() {
        Ok(Piece {
            kind: words(alloc, title, before(rest, end))?,
            len: end + 1,
        })
    } else {
        Ok(Piece {
            kind: Kind::Faulty(Cause::Quote),
            len: rest.len(),
        })
    }
}

/// The place of the first quote, or the length where there is none.
fn quote_place(rest: &str) -> usize
    ensures place { result ≡ position_or_len is_quote rest.now }
    ensures within { result ≤ length rest.now }
    ensures boundary { IsCharBoundary rest.now result }
    ensures past { result < length rest.now → IsCharBoundary rest.now (result + 1) }
{
    quote_index(rest.as_bytes())
}

/// The run at the front: up to the next blank, parenthesis or quote.
fn run_of(rest: &str) -> &str
    ensures value { result.now ≡ take_while is_run rest.now }
    ensures len { length result.now ≡ prefix_len is_run rest.now }
    ensures within { length result.now ≤ length rest.now }
    ensures boundary { IsCharBoundary rest.now (length result.now) }
{
    let len = run_end(rest.as_bytes());
    &rest[..len]
}

/// The front up to the next blank.
fn solid_run(rest: &str) -> &str
    ensures value { result.now ≡ take_while is_solid rest.now }
    ensures len { length result.now ≡ prefix_len is_solid rest.now }
    ensures within { length result.now ≤ length rest.now }
    ensures boundary { IsCharBoundary rest.now (length result.now) }
{
    let len = solid_end(rest.as_bytes());
    &rest[..len]
}

/// The index of the first quote, or the length where there is none.
fn quote_index(rest: &[u8]) -> usize
    ensures place { result ≡ position_or_len is_quote rest.now }
    ensures within { result ≤ length rest.now }
{
    let mut n = 0;
    while n < rest.len() && rest[n] != b'"' {
        n += 1;
    }
    n
}

/// The length of the run at the front.
fn run_end(rest: &[u8]) -> usize
    ensures { IsFront is_run rest.now result }
{
    let mut n = 0;
    while n < rest.len() && runs(rest[n]) {
        n += 1;
    }
    n
}

/// Whether a run goes on with this byte.
fn runs(b: u8) -> bool
    ensures { result ≡ is_run b }
{
    !(blank(b) || b == b'(' || b == b')' || b == b'"')
}

/// The length of the bytes at the front that are no blanks.
fn solid_end(rest: &[u8]) -> usize
    ensures { IsFront is_solid rest.now result }
{
    let mut n = 0;
    while n < rest.len() && !blank(rest[n]) {
        n += 1;
    }
    n
}

/// What a run is.
#[tactic(auto, unfolding(alta_machine::specs::Spots::run_token))]
fn run(alloc: Global, text: &str) -> Result<Kind<'_>, AllocError>
    ensures { IfOk result (λ kind. token_of kind ≡ run_token text.now) }
{
    if text == "AND" {
        Ok(Kind::And)
    } else if text == "OR" {
        Ok(Kind::Or)
    } else if text == "NOT" {
        Ok(Kind::Not)
    } else if begins(text, "NEAR/") {
        Ok(near(behind(text, 5).as_bytes()))
    } else if begins(text, "value:") {
        Ok(value(behind(text, 6)))
    } else if begins(text, "title:") {
        plain(alloc, true, behind(text, 6))
    } else {
        plain(alloc, false, text)
    }
}

/// A prefix or words.
#[tactic(auto, unfolding(alta_machine::specs::Spots::plain_token))]
fn plain(alloc: Global, title: bool, text: &str) -> Result<Kind<'_>, AllocError>
    ensures { IfOk result (λ kind. token_of kind ≡ plain_token title text.now) }
{
    if starred(text) {
        prefix(alloc, title, before(text, text.len() - 1))
    } else {
        words(alloc, title, text)
    }
}

/// A prefix.
#[tactic(auto, unfolding(alta_machine::specs::Spots::prefix_token))]
fn prefix(alloc: Global, title: bool, stem: &str) -> Result<Kind<'_>, AllocError>
    ensures { IfOk result (λ kind. token_of kind ≡ prefix_token title stem.now) }
{
    if is_whole_word(alloc, stem)? {
        Ok(Kind::Operand(Lent::Prefix { title, stem }))
    } else {
        Ok(Kind::Faulty(Cause::Prefix))
    }
}

/// The words of a text.
#[tactic(auto, unfolding(alta_machine::specs::Spots::words_token))]
fn words(alloc: Global, title: bool, text: &str) -> Result<Kind<'_>, AllocError>
    ensures { IfOk result (λ kind. token_of kind ≡ words_token title text.now) }
{
    if has_short_words(alloc, text)? {
        Ok(Kind::Operand(Lent::Words { title, text }))
    } else {
        Ok(Kind::Faulty(Cause::Word))
    }
}

/// A name.
fn named(name: &str) -> Kind<'_>
    ensures { token_of result ≡ name_token name.now }
{
    if name_ok(name.as_bytes()) {
        Kind::Operand(Lent::Name { name })
    } else {
        Kind::Faulty(Cause::Name)
    }
}

/// The numbers from one to another.
#[tactic(auto, unfolding(alta_machine::specs::Spots::value_token))]
fn value(text: &str) -> Kind<'_>
    ensures { token_of result ≡ value_token text.now }
{
    let low = undotted_run(text);
    let rest = behind(text, low.len());
    if begins(rest, "..") {
        between(number(low), number(behind(rest, 2)))
    } else {
        Kind::Faulty(Cause::Value)
    }
}

/// The numbers from one to another, if both are numbers and the second is no lower.
fn between<'a>(low: Option<u32>, high: Option<u32>) -> Kind<'a>
    ensures { token_of result ≡ ordered low high }
{
    match (low, high) {
        (Some(low), Some(high)) if low <= high => Kind::Operand(Lent::Value { low, high }),
        _ => Kind::Faulty(Cause::Value),
    }
}

/// The front up to the next dot.
fn undotted_run(rest: &str) -> &str
    ensures value { result.now ≡ take_while is_undotted rest.now }
    ensures len { length result.now ≡ prefix_len is_undotted rest.now }
    ensures boundary { IsCharBoundary rest.now (length result.now) }
{
    let len = undotted_end(rest.as_bytes());
    &rest[..len]
}

/// The length of the bytes at the front that are no dots.
fn undotted_end(rest: &[u8]) -> usize
    ensures { IsFront is_undotted rest.now result }
{
    let mut n = 0;
    while n < rest.len() && rest[n] != b'.' {
        n += 1;
    }
    n
}

/// The distance of a NEAR.
#[tactic(auto, unfolding(alta_machine::specs::Spots::near_token, alta_codec::specs::Decimal::count_in))]
fn near(digits: &[u8]) -> Kind<'_>
    ensures { token_of result ≡ near_token digits.now }
{
    match read_count(digits, 4, 1000) {
        Some(distance) => Kind::Near(distance as u16),
        None => Kind::Faulty(Cause::Near),
    }
}
