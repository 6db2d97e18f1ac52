//! Words, and the settings that they say.

use super::*;
use blob_id::Words;
use std::alloc::Global;
use std::test::*;
use world_model::Shape;

// The settings that the words of a line say.
fn read(alloc: Global, line: &str) -> Result<Settings, WordsFault> {
    let mut words = Words::new(alloc);
    for word in line.split(' ') {
        if words.push(alloc, word).is_err() {
            return Err(WordsFault::Memory);
        }
    }
    read_words(alloc, &words)
}

/// The numbers of a shape that options set: nodes, replicas, partitions, the needs of a put, of a get and of a delete, and the bytes of
/// a segment, the segments of a log and the records of an index segment.
fn numbers(shape: &Shape) -> [u32; 9] {
    let log = shape.log;
    [
        shape.nodes,
        shape.replicas,
        shape.partitions,
        shape.put,
        shape.get,
        shape.delete,
        log.segment,
        u32::from(log.segments),
        u32::from(log.index),
    ]
}

#[test]
fn settings_are_read(rt: HostRuntime) -> Result<(), Fail> {
    let table: [(&str, [u32; 9], &str, Option<u64>, u64); 7] = [
        (
            "run",
            [3, 3, 4, 2, 2, 2, 1_048_576, 8, 256],
            "ambry-data",
            None,
            0,
        ),
        (
            "run --nodes 1 --folder=_A.z-0/-9 --seed 0",
            [1, 1, 4, 1, 1, 1, 1_048_576, 8, 256],
            "_A.z-0/-9",
            None,
            0,
        ),
        (
            "run --nodes=00000000000000000009 --ids=0",
            [9, 3, 4, 2, 2, 2, 1_048_576, 8, 256],
            "ambry-data",
            Some(0),
            0,
        ),
        (
            "run --replicas=4 --nodes=5 --seed=18446744073709551615",
            [5, 4, 4, 3, 3, 3, 1_048_576, 8, 256],
            "ambry-data",
            None,
            u64::MAX,
        ),
        (
            "run --put 3 --get 1 --delete=03",
            [3, 3, 4, 3, 1, 3, 1_048_576, 8, 256],
            "ambry-data",
            None,
            0,
        ),
        (
            "run --partitions=64 --segment 66736 --segments 2 --index 2",
            [3, 3, 64, 2, 2, 2, 66_736, 2, 2],
            "ambry-data",
            None,
            0,
        ),
        (
            "run --segment=16777216 --segments=64 --index=4096 --folder .../..a/b.. --ids 34 --seed 12",
            [3, 3, 4, 2, 2, 2, 16_777_216, 64, 4_096],
            ".../..a/b..",
            Some(34),
            12,
        ),
    ];
    for (line, wanted, folder, ids, seed) in table {
        let settings = read(rt.alloc(), line)?;
        assert_eq!(rt; numbers(&settings.shape), wanted);
        assert_eq!(rt; settings.shape.chunk, 65_536);
        assert_eq!(rt; settings.folder.as_str(), folder);
        assert_eq!(rt; settings.ids, ids);
        assert_eq!(rt; settings.seed, seed);
    }
    Ok(())
}
