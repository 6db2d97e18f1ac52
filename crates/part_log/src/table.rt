//! The live segments of a log, in log order, and what is looked up in them.

ghost use Rattle.std.specs.Prelude.{◌≡◌, ◌+◌, ◌*◌, ◌^◌, ◌<◌, ◌≤◌, length, false, IfOk};
ghost use Rattle.log_manifest.specs.Manifests.{IsManifest, manifest_text};
ghost use Rattle.part_log.specs.Segments.{place_of, is_among, free_from, lives_of, last_segment, last_used};

use crate::segment::SegmentInfo;
use blob_id::{Bytes, Listed, Memory};
use log_manifest::{Live, LogSettings, Manifest, write_manifest};
use std::alloc::Global;

/// Where the token cell begins. The manifest's cell stands in front of it.
pub(crate) const TOKENS: u64 = 2_048;

/// How many bytes stand in front of the segments: the manifest's cell and the token cell.
pub(crate) const CELLS: u64 = 4_096;

/// Where a segment begins on the disk.
pub(crate) fn place_of(settings: &LogSettings, number: u16) -> u64
    ensures place { result ≡ place_of settings.now.segment number }
    ensures small { result < 2 ^ 63 }
{
    CELLS + u64::from(number) * u64::from(settings.segment)
}

/// Whether a segment is one of these.
pub(crate) fn is_among(number: u16, segments: &[SegmentInfo]) -> bool
    ensures { result ≡ is_among number segments.now }
{
    segments.iter().any(|info| number == info.segment)
}

/// The free segment with the least number, where fewer than `count` are live.
pub(crate) fn least_free(segments: &[SegmentInfo], count: u16) -> u16
    requires { length segments.now < count }
    ensures least { result ≡ free_from count 0 segments.now }
    ensures small { result < count }
    ensures free { is_among result segments.now ≡ false }
{
    let mut number = 0;
    while is_among(number, segments) {
        number += 1;
    }
    number
}

/// The last live segment.
fn last_segment(segments: &[SegmentInfo]) -> u16
    ensures { result ≡ last_segment segments.now }
{
    match segments.last() {
        Some(info) => info.segment,
        None => 0,
    }
}

/// How many bytes of the last live segment hold records.
pub(crate) fn last_used(segments: &[SegmentInfo]) -> u32
    ensures { result ≡ last_used segments.now }
{
    match segments.last() {
        Some(info) => info.used,
        None => 0,
    }
}

/// The place behind the last record.
pub(crate) fn next_place(settings: &LogSettings, segments: &[SegmentInfo]) -> u64
    ensures { result ≡ place_of settings.now.segment (last_segment segments.now) + last_used segments.now }
{
    place_of(settings, last_segment(segments)) + u64::from(last_used(segments))
}

/// What the manifest names of these segments.
fn lives_of(alloc: Global, segments: &[SegmentInfo]) -> Result<Listed<Live>, Memory>
    ensures { IfOk result (λ lives. lives ≡ lives_of segments.now) }
{
    let mut lives = Listed::new(alloc);
    for info in segments {
        lives.push(Live {
            segment: info.segment,
            generation: info.generation,
        })?;
    }
    Ok(lives)
}

/// The bytes of the manifest that names these segments.
pub(crate) fn manifest_bytes(
    alloc: Global,
    settings: LogSettings,
    segments: &[SegmentInfo],
    next_generation: u64,
    floor: u64,
) -> Result<Bytes, Memory>
    requires { IsManifest (record { settings = settings; next_generation = next_generation; floor = floor; live = lives_of segments.now }) }
    ensures { IfOk result (λ bytes. bytes ≡ manifest_text (record { settings = settings; next_generation = next_generation; floor = floor; live = lives_of segments.now })) }
{
    let live = lives_of(alloc, segments)?;
    let manifest = Manifest {
        settings,
        next_generation,
        floor,
        live,
    };
    write_manifest(alloc, &manifest)
}
