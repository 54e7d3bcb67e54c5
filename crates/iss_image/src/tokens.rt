//! The tokens of events, each once.
ghost use Rattle.std.specs.Prelude.{◌≡◌, fold, OnOk, IfOk};
ghost use Rattle.std.specs.Cmp.Lexicographic.{pointwise};
ghost use Rattle.std.specs.Str.{bytes_eq};
ghost use Rattle.iss_model.specs.texts.Spelling.{tokens_of};
ghost use Rattle.iss_image.specs.Images.{with_token, tokens_first};
ghost use Rattle.iss_image.specs.States.{have_tokens};

use iss_codec::put_tokens;
use iss_index::Names;
use iss_model::{Input, Seen, Token};
use std::alloc::{AllocError, Global};

/// The places of the last two tokens that stood before. A purchase names its card and its merchant, as the one before it may have.
#[derive(Drop)]
struct Likely {
    next: usize,
    later: usize,
}

impl Likely {
    /// Notes where a token was found, if it was.
    fn note(&mut self, found: Option<u32>) {
        if let Some(place) = found {
            self.next = self.later;
            self.later = place as usize;
        }
    }
}

/// The tokens of events in the order in which they first stand in the spellings of their records. There is room for `count` of them.
pub(crate) fn tokens_first(
    alloc: Global,
    events: &[Seen],
    count: usize,
) -> Result<Names, AllocError>
    ensures { IfOk result (λ names. names ≡ tokens_first events.now) }
{
    let mut names = Names::with_room(alloc, count)?;
    let mut tokens = Vec::new(alloc);
    let mut likely = Likely { next: 0, later: 0 };
    for event in events {
        add_tokens(&mut names, &mut tokens, &mut likely, &event.body.input)?;
    }
    Ok(names)
}

/// Adds the tokens of an input. `tokens` is room for them, and what it holds is let go.
fn add_tokens(
    names: &mut Names,
    tokens: &mut Vec<Token>,
    likely: &mut Likely,
    input: &Input,
) -> Result<(), AllocError>
    ensures { OnOk result (names.new ≡ fold with_token names.old (tokens_of input.now)) }
{
    tokens.clear();
    put_tokens(tokens, input)?;
    add_each(names, tokens, likely)
}

fn add_each(names: &mut Names, tokens: &[Token], likely: &mut Likely) -> Result<(), AllocError>
    ensures { OnOk result (names.new ≡ fold with_token names.old tokens.now) }
{
    for token in tokens {
        add_token(names, token, likely)?;
    }
    Ok(())
}

fn add_token(names: &mut Names, token: &Token, likely: &mut Likely) -> Result<(), AllocError>
    ensures { OnOk result (names.new ≡ with_token names.old token.now) }
{
    let found = names.find_near(token, likely.next);
    likely.note(found);
    if found.is_none() {
        names.add(token)?;
    }
    Ok(())
}

/// Whether these are the tokens of the events, each once, in the order in which they first stand.
pub(crate) fn have_tokens(
    alloc: Global,
    tokens: &[Token],
    events: &[Seen],
) -> Result<bool, AllocError>
    ensures { IfOk result (λ own. own ≡ have_tokens tokens.now events.now) }
{
    let first = tokens_first(alloc, events, tokens.len())?;
    Ok(are_these(tokens, &first))
}

fn are_these(tokens: &[Token], names: &Names) -> bool
    ensures { result ≡ pointwise bytes_eq tokens.now names.now }
{
    if tokens.len() != names.len() {
        return false;
    }
    for (place, token) in tokens.iter().enumerate() {
        if token != names.at(place) {
            return false;
        }
    }
    true
}
