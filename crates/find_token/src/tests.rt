use super::*;
use std::test::Fail;

/// The token of an lsn whose eight bytes differ.
const JOURNAL: [u8; 9] = [1, 1, 2, 3, 4, 5, 6, 7, 8];

const LSN: u64 = 0x0102_0304_0506_0708;

#[test]
fn each_token_is_written_and_read(rt: HostRuntime) -> Result<(), Fail> {
    let alloc = rt.alloc();
    let start = write_token(alloc, &FindToken::Start)?;
    assert_eq!(rt; start.as_slice(), [0].as_slice());
    let journal = write_token(alloc, &FindToken::Journal(LSN))?;
    assert_eq!(rt; journal.as_slice(), JOURNAL.as_slice());
    assert_eq!(rt; read_token(&[0]), Some((FindToken::Start, 1)));
    assert_eq!(rt; read_token(&JOURNAL), Some((FindToken::Journal(LSN), 9)));
    Ok(())
}
