//! Reading tokens.

ghost use Rattle.std.specs.Prelude.{◌≡◌, ◌++◌, ℕ, List, length};
ghost use Rattle.field_codec.specs.Spelling.{IsBytes};
ghost use Rattle.find_token.specs.declared.token.FindToken.{FindToken};
ghost use Rattle.find_token.specs.Tokens.{IsToken, BeginsWith, token_text, token_at};

use crate::token::FindToken;
use field_codec::{read_u8, read_u64};

/// The token in front of the bytes, and how many bytes spell it. `None` comes exactly where no token stands in front.
#[tactic(auto, unfolding(crate::specs::Tokens::token_at))]
pub fn read_token(bytes: &[u8]) -> Option<(FindToken, usize)>
    ensures { result ≡ token_at bytes.now }
{
    let (kind, rest) = read_u8(bytes)?;
    match kind {
        0 => Some((FindToken::Start, 1)),
        1 => {
            let (lsn, _) = read_u64(rest)?;
            Some((FindToken::Journal(lsn), 9))
        }
        _ => None,
    }
}

/// The laws of the spellings of tokens.
pub fn token_laws()
    // What is read stands in front.
    ensures spelled { (bytes : List ℕ) (token : FindToken) (size : ℕ) → IsBytes bytes → token_at bytes ≡ Some (token, size) → BeginsWith bytes token size }
    // What stands in front is read, whatever is behind it.
    ensures read { (token : FindToken) (rest : List ℕ) → IsToken token → token_at (token_text token ++ rest) ≡ Some (token, length (token_text token)) }
    // No spelling begins another one, and each has one token.
    ensures apart { (a b : FindToken) (x y : List ℕ) → IsToken a → IsToken b → token_text a ++ x ≡ token_text b ++ y → (a ≡ b) × (x ≡ y) }
{}
