//! The words of a line.

ghost use Rattle.std.specs.Prelude.{◌≡◌, ◌≤◌, length, option_map};
ghost use Rattle.scenario_text.specs.Readings.{Finds, FindsAs};
ghost use Rattle.scenario_text.specs.Words.{FoundAs, past_spaces, has, ends, is_apart, quoted, whole, bare, word_at, next_word, has_more, spelled, word, text, end_of_line};

use crate::fault::Cause;
use std::marker::Model;
use ua_types::behind;

// A word without its quotes, and whether it stands in quotes; none where the line ends. And the rest of the line.
type Found<'a> = (Option<(&'a str, bool)>, &'a str);

// The part of a line behind the spaces at its front.
#[tactic(auto, using(crate::proofs::Spaces::past_one, crate::proofs::Spaces::past_none, crate::proofs::Spaces::past_shorter))]
fn past_spaces(line: &str) -> &str
    ensures { result.now ≡ past_spaces line.now }
{
    let mut rest = line;
    while let Some(more) = behind(rest, " ") {
        rest = more;
    }
    rest
}

// The character stands in the text: a quote or a comment's.
fn has_quote(text: &str) -> bool
    ensures { result ≡ has 34 text.now }
{
    text.split_once('"').is_some()
}

fn ends(line: &str) -> bool
    ensures { result ≡ ends line.now }
{
    line.is_empty() || line.starts_with('#')
}

fn is_apart(line: &str) -> bool
    ensures { result ≡ is_apart line.now }
{
    line.is_empty() || line.starts_with(' ') || line.starts_with('#')
}

// A word that begins with a quote, from behind the quote on.
fn quoted(line: &str) -> Result<Found<'_>, Cause>
    ensures { FoundAs result (quoted line.now) }
{
    let Some((text, rest)) = line.split_once('"') else {
        return Err(Cause::Word);
    };
    if is_apart(rest) {
        Ok((Some((text, true)), rest))
    } else {
        Err(Cause::Word)
    }
}

fn whole<'a>(word: &'a str, rest: &'a str) -> Result<Found<'a>, Cause>
    ensures { FoundAs result (whole word.entry.now rest.entry.now) }
{
    if has_quote(word) {
        return Err(Cause::Word);
    }
    Ok((Some((word, false)), rest))
}

// A word that doesn't begin with a quote.
fn bare(line: &str) -> Result<Found<'_>, Cause>
    ensures { FoundAs result (bare line.now) }
{
    let (word, rest) = match line.split_once(' ') {
        Some(parts) => parts,
        None => (line, ""),
    };
    match word.split_once('#') {
        Some((word, _)) => whole(word, ""),
        None => whole(word, rest),
    }
}

fn word_at(line: &str) -> Result<Found<'_>, Cause>
    ensures { FoundAs result (word_at line.now) }
{
    if ends(line) {
        return Ok((None, line));
    }
    match behind(line, "\"") {
        Some(rest) => quoted(rest),
        None => bare(line),
    }
}

/// What is left of a line. Contracts see its characters.
///
/// Each call reads the next word and moves past it. At an `Err` nothing is said of what is left.
#[derive(Debug, Drop)]
pub(crate) struct Words<'a> {
    // From the next word or the spaces before it on.
    rest: &'a str,
}

impl<'a> Model for Words<'a> {
    ghost use Rattle.std.specs.Prelude.{ℕ, List};

    ghost Value = { List ℕ };

    ghost view = { λ w. w.rest.now };
}

impl<'a> Words<'a> {
    /// All words of a line.
    pub fn new(line: &'a str) -> Words<'a>
        ensures { result ≡ line.now }
    {
        Words { rest: line }
    }

    /// How many characters are left, in bytes: words are no more.
    pub fn len(&self) -> usize
        ensures { result ≡ length self.now }
    {
        self.rest.len()
    }

    /// Whether a further word follows, good or bad.
    #[tactic(auto, unfolding(crate::specs::Words::has_more))]
    pub fn has_more(&self) -> bool
        ensures { result ≡ has_more self.now }
    {
        !ends(past_spaces(self.rest))
    }

    /// The next word without its quotes, and whether it stands in quotes. None where the line ends.
    #[tactic(auto, unfolding(crate::specs::Words::next_word))]
    pub fn next_word(&mut self) -> Result<Option<(&'a str, bool)>, Cause>
        ensures { FindsAs (λ w. option_map (λ s. (s.0.now, s.1)) w) result self.new (next_word self.old) }
    {
        let (word, rest) = word_at(past_spaces(self.rest))?;
        self.rest = rest;
        Ok(word)
    }

    /// The next word, which has to be there, and whether it stands in quotes.
    #[tactic(auto, unfolding(crate::specs::Words::spelled))]
    pub fn spelled(&mut self) -> Result<(&'a str, bool), Cause>
        ensures { FindsAs (λ s. (s.0.now, s.1)) result self.new (spelled self.old) }
    {
        match self.next_word()? {
            Some(word) => Ok(word),
            None => Err(Cause::Word),
        }
    }

    /// The next word, quoted or not.
    #[tactic(auto, unfolding(crate::specs::Words::word))]
    pub fn word(&mut self) -> Result<&'a str, Cause>
        ensures { FindsAs (λ w. w.now) result self.new (word self.old) }
    {
        let (word, _) = self.spelled()?;
        Ok(word)
    }

    /// The next word, which has to be quoted.
    #[tactic(auto, unfolding(crate::specs::Words::text))]
    pub fn text(&mut self) -> Result<&'a str, Cause>
        ensures { FindsAs (λ w. w.now) result self.new (text self.old) }
    {
        let (word, is_quoted) = self.spelled()?;
        if is_quoted {
            Ok(word)
        } else {
            Err(Cause::Word)
        }
    }

    /// Nothing more may follow.
    #[tactic(auto, unfolding(crate::specs::Words::end_of_line))]
    pub fn end(&self) -> Result<(), Cause>
        ensures { Finds result self.now (end_of_line self.now) }
    {
        if self.has_more() {
            Err(Cause::Word)
        } else {
            Ok(())
        }
    }
}
