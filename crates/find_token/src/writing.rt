//! Writing tokens.

ghost use Rattle.std.specs.Prelude.{◌≡◌, IfOk};
ghost use Rattle.find_token.specs.Tokens.{token_text};

use crate::token::FindToken;
use blob_id::{Bytes, Memory};
use field_codec::{write_u8, write_u64};
use std::alloc::Global;

/// The one spelling of a token, of 1 or 9 bytes.
pub fn write_token(alloc: Global, token: &FindToken) -> Result<Bytes, Memory>
    ensures { IfOk result (λ bytes. bytes ≡ token_text token.now) }
{
    let mut out = Vec::with_capacity(alloc, 9)?;
    match token {
        FindToken::Start => write_u8(&mut out, 0)?,
        FindToken::Journal(lsn) => {
            write_u8(&mut out, 1)?;
            write_u64(&mut out, *lsn)?;
        }
    }
    Ok(Bytes::from_vec(out))
}
