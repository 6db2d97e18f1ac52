//! Writing how an operation ended.

ghost use Rattle.std.specs.Prelude.{◌≡◌, ◌<◌, ◌++◌, length, take, codes, flat_map, slice_index, OnOk, OnErr};
ghost use Rattle.std.specs.Fmt.{decimal};
ghost use Rattle.hex.specs.Hex.{encode_lower, lower_digits};
ghost use Rattle.session_text.specs.Outcomes.{spelled_bytes, sized_bytes, cause_word, failure_words, failures_words, properties_words, type_words, outcome_words};
ghost use Rattle.session_text.specs.Pieces.{piece_text, BeginsWith};

use blob_id::{BlobId, Memory};
use itoa::Buffer;
use quorum_op::{Cause, Failures, Outcome};

/// A piece of a line.
#[derive(Clone, Copy)]
enum Piece<'a> {
    Text(&'a [u8]),
    /// A number, in decimal.
    Number(u64),
    /// How many bytes, and the bytes: two digits each, or `-` for none.
    Sized(&'a [u8]),
    /// The 40 digits of an id.
    Id(BlobId),
    /// Nodes that failed, each with its cause and a space before it.
    Failed(&'a Failures),
    /// When a blob was made, its type, and its metadata bytes, each with a space before it.
    Properties(u64, &'a [u8], &'a [u8]),
}

/// Adds the words that say how an operation ended, as they stand behind its tag. A refusal leaves `out` as it is.
pub fn write_outcome(outcome: &Outcome, out: &mut Vec<u8>) -> Result<(), Memory>
    ensures ok { OnOk result (out.new.items ≡ out.old.items ++ outcome_words outcome.now) }
    ensures err { OnErr result (out.new.items ≡ out.old.items) }
{
    let (text, more, last) = outcome_pieces(outcome);
    write_pieces(out, &[Piece::Text(text), more, last])
}

/// The words of an outcome: a text, and what stands behind it.
#[tactic(auto, unfolding(crate::specs::Outcomes::outcome_words))]
fn outcome_pieces(outcome: &Outcome) -> (&[u8], Piece<'_>, Piece<'_>)
    ensures { result.0.now ++ (piece_text result.1 ++ piece_text result.2) ≡ outcome_words outcome.now }
{
    match outcome {
        Outcome::Put(id) => (b"ok ", Piece::Id(*id), Piece::Text(b"")),
        Outcome::Deleted2 => (b"ok", Piece::Text(b""), Piece::Text(b"")),
        Outcome::Bytes(bytes) => (b"ok ", Piece::Sized(bytes.as_slice()), Piece::Text(b"")),
        Outcome::Info {
            size,
            created,
            ctype,
            meta,
        } => (
            b"ok ",
            Piece::Number(*size),
            Piece::Properties(*created, ctype.as_slice(), meta.as_slice()),
        ),
        Outcome::Deleted => (b"deleted", Piece::Text(b""), Piece::Text(b"")),
        Outcome::NotFound => (b"notfound", Piece::Text(b""), Piece::Text(b"")),
        Outcome::Unavailable { id, failed } => (
            b"unavailable ",
            Piece::Id(*id),
            Piece::Failed(failed),
        ),
        Outcome::Cancelled => (b"cancelled", Piece::Text(b""), Piece::Text(b"")),
        Outcome::TooLarge(length) => (b"toolarge ", Piece::Number(*length), Piece::Text(b"")),
        Outcome::BadRange(length) => (b"badrange ", Piece::Number(*length), Piece::Text(b"")),
        Outcome::NotWhole => (b"notwhole", Piece::Text(b""), Piece::Text(b"")),
        Outcome::NoFile => (b"nofile", Piece::Text(b""), Piece::Text(b"")),
        Outcome::NoId => (b"noid", Piece::Text(b""), Piece::Text(b"")),
        Outcome::NoPartition => (b"nopartition", Piece::Text(b""), Piece::Text(b"")),
        Outcome::Missing(id) => (b"missing ", Piece::Id(*id), Piece::Text(b"")),
        Outcome::Corrupt(id) => (b"corrupt ", Piece::Id(*id), Piece::Text(b"")),
        Outcome::Memory => (b"memory", Piece::Text(b""), Piece::Text(b"")),
    }
}

/// Adds pieces, all of them or, on a refusal, none.
fn write_pieces(out: &mut Vec<u8>, pieces: &[Piece<'_>]) -> Result<(), Memory>
    ensures ok { OnOk result (out.new.items ≡ out.old.items ++ flat_map piece_text pieces.now) }
    ensures err { OnErr result (out.new.items ≡ out.old.items) }
{
    let start = out.len();
    match add_pieces(out, pieces) {
        Ok(()) => Ok(()),
        Err(refused) => {
            out.truncate(start);
            Err(refused)
        }
    }
}

/// Adds pieces. A refusal leaves some of them behind.
fn add_pieces(out: &mut Vec<u8>, pieces: &[Piece<'_>]) -> Result<(), Memory>
    ensures ok { OnOk result (out.new.items ≡ out.old.items ++ flat_map piece_text pieces.now) }
    ensures kept { BeginsWith out.old.items out.new.items }
{
    for piece in pieces {
        add_piece(out, piece)?;
    }
    Ok(())
}

fn add_piece(out: &mut Vec<u8>, piece: &Piece<'_>) -> Result<(), Memory>
    ensures ok { OnOk result (out.new.items ≡ out.old.items ++ piece_text piece.now) }
    ensures kept { BeginsWith out.old.items out.new.items }
{
    match piece {
        Piece::Text(text) => add(out, text),
        Piece::Number(number) => add_number(out, *number),
        Piece::Sized(bytes) => add_sized(out, bytes),
        Piece::Id(id) => {
            let bytes = id.bytes();
            add_digits(out, bytes.as_slice())
        }
        Piece::Failed(failed) => add_failures(out, failed.as_slice()),
        Piece::Properties(created, ctype, meta) => add_properties(out, *created, ctype, meta),
    }
}

fn add_failures(out: &mut Vec<u8>, failed: &[(u32, Cause)]) -> Result<(), Memory>
    ensures ok { OnOk result (out.new.items ≡ out.old.items ++ failures_words failed.now) }
    ensures kept { BeginsWith out.old.items out.new.items }
{
    for (node, cause) in failed {
        add_failure(out, *node, *cause)?;
    }
    Ok(())
}

fn add_failure(out: &mut Vec<u8>, node: u32, cause: Cause) -> Result<(), Memory>
    ensures ok { OnOk result (out.new.items ≡ out.old.items ++ failure_words (node, cause)) }
    ensures kept { BeginsWith out.old.items out.new.items }
{
    add(out, b" ")?;
    add_number(out, u64::from(node))?;
    add(out, b":")?;
    add(out, cause_word(cause))
}

#[tactic(auto, unfolding(crate::specs::Outcomes::cause_word))]
fn cause_word(cause: Cause) -> &'static [u8]
    ensures { result.now ≡ cause_word cause }
{
    match cause {
        Cause::Timeout => b"timeout",
        Cause::Patience => b"patience",
        Cause::Broken => b"broken",
        Cause::Full => b"full",
        Cause::Clash => b"clash",
        Cause::Gone => b"gone",
        Cause::Fault => b"fault",
        Cause::Down => b"down",
        Cause::Memory => b"memory",
        Cause::Stray => b"stray",
        Cause::Cancelled => b"cancelled",
    }
}

fn add_properties(out: &mut Vec<u8>, created: u64, ctype: &[u8], meta: &[u8]) -> Result<(), Memory>
    ensures ok { OnOk result (out.new.items ≡ out.old.items ++ properties_words created ctype.now meta.now) }
    ensures kept { BeginsWith out.old.items out.new.items }
{
    add(out, b" ")?;
    add_number(out, created)?;
    add(out, b" ")?;
    add(out, type_words(ctype))?;
    add(out, b" ")?;
    add_spelled(out, meta)
}

/// A type, or `-` where there is none.
fn type_words(ctype: &[u8]) -> &[u8]
    ensures { result.now ≡ type_words ctype.now }
{
    match ctype {
        [] => b"-",
        _ => ctype,
    }
}

#[tactic(auto, using(crate::proofs::PieceLemmas::begins_with_itself, crate::proofs::PieceLemmas::begins_with_front))]
fn add(out: &mut Vec<u8>, text: &[u8]) -> Result<(), Memory>
    ensures ok { OnOk result (out.new.items ≡ out.old.items ++ text.now) }
    ensures kept { BeginsWith out.old.items out.new.items }
{
    out.extend_from_slice(text)?;
    Ok(())
}

fn add_number(out: &mut Vec<u8>, number: u64) -> Result<(), Memory>
    ensures ok { OnOk result (out.new.items ≡ out.old.items ++ decimal number) }
    ensures kept { BeginsWith out.old.items out.new.items }
{
    let mut buffer = Buffer::new();
    add(out, buffer.format(number).as_bytes())
}

fn add_sized(out: &mut Vec<u8>, bytes: &[u8]) -> Result<(), Memory>
    ensures ok { OnOk result (out.new.items ≡ out.old.items ++ sized_bytes bytes.now) }
    ensures kept { BeginsWith out.old.items out.new.items }
{
    add_number(out, bytes.len() as u64)?;
    add(out, b" ")?;
    add_spelled(out, bytes)
}

/// Adds `-` for no bytes, else two digits for each byte.
fn add_spelled(out: &mut Vec<u8>, bytes: &[u8]) -> Result<(), Memory>
    ensures ok { OnOk result (out.new.items ≡ out.old.items ++ spelled_bytes bytes.now) }
    ensures kept { BeginsWith out.old.items out.new.items }
{
    match bytes {
        [] => add(out, b"-"),
        _ => add_digits(out, bytes),
    }
}

/// Adds two digits for each byte, in room that is made at once.
#[tactic(auto, using(crate::proofs::PieceLemmas::begins_with_itself), unfolding(hex::specs::Hex::encode_with))]
fn add_digits(out: &mut Vec<u8>, bytes: &[u8]) -> Result<(), Memory>
    ensures ok { OnOk result (out.new.items ≡ out.old.items ++ encode_lower bytes.now) }
    ensures kept { BeginsWith out.old.items out.new.items }
{
    out.reserve(bytes.len().saturating_mul(2))?;
    for byte in bytes {
        add(out, &[digit(*byte / 16), digit(*byte % 16)])?;
    }
    Ok(())
}

/// A digit, in lower case.
fn digit(value: u8) -> u8
    requires { value < 16 }
    ensures { result ≡ slice_index lower_digits value }
{
    b"0123456789abcdef"[value as usize]
}
