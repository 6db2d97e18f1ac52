//! Tallies of gets that need two of three replicas.

ghost use Rattle.std.specs.Prelude.{◌≡◌};

use super::*;
use std::test::Fail;

/// The tally of a get that needs two of three replicas.
fn two_of_three() -> Tally
    ensures { result.replicas ≡ 3 }
{
    Tally::new(TallyKind::Get, 3, 2)
}

#[test]
fn a_tally_counts_each_replica_once(rt: HostRuntime) -> Result<(), Fail> {
    let mut repeated = two_of_three();
    repeated.note(0, Mark::Absent);
    repeated.note(0, Mark::Absent);
    assert_eq!(rt; repeated.verdict(), Verdict::Pending);
    repeated.note(2, Mark::Yes);
    assert_eq!(rt; repeated.verdict(), Verdict::Ok);
    let mut failed = two_of_three();
    failed.fail(0, Cause::Timeout);
    failed.fail(1, Cause::Broken);
    assert_eq!(rt; failed.verdict(), Verdict::Unavailable);
    let failures = failed.failures(rt.alloc())?;
    assert_eq!(rt;
        failures.as_slice(),
        [(0, Cause::Timeout), (1, Cause::Broken)].as_slice()
    );
    let mut deleted = two_of_three();
    deleted.fail(0, Cause::Timeout);
    deleted.note(1, Mark::Gone);
    assert_eq!(rt; deleted.verdict(), Verdict::Gone);
    Ok(())
}
