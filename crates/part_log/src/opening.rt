//! Opening a log: a sync, the manifest, the token cell's sequence, and one pass over the records. A disk without a manifest is new,
//! and is given one.

ghost use Rattle.std.specs.Prelude.{◌≡◌, ◌+◌, ◌^◌, ◌<◌, ◌≤◌, ℕ, List, [], false, None, Some, OnOk, IfOk, IfErr, IsErrOf};
ghost use Rattle.outside.specs.Causes.{Rose};
ghost use Rattle.disk_core.specs.Content.{ChangesBy, Only, Same};
ghost use Rattle.gate_slots.specs.Cell.{cell_at};
ghost use Rattle.gate_slots.specs.Slots.{IsLoaded};
ghost use Rattle.log_manifest.specs.declared.manifest.LogSettings.{LogSettings};
ghost use Rattle.log_manifest.specs.Manifests.{IsManifest, manifest_text};
ghost use Rattle.part_log.specs.Records.{Placed, records_of};
ghost use Rattle.part_log.specs.Images.{EndBadly, IsDamaged, IsLaidOut, NamesOther, OpensLog, StandsFor};
ghost use Rattle.part_log.specs.Log.{AreInRange, IsLog, IsTable, IsTokenSlot, disk_size, layout_of};
ghost use Rattle.part_log.specs.Opened.{IsOpened, opened_table};
ghost use Rattle.part_log.specs.Scan.{TakesAll, found_of};

use crate::collect::Collect;
use crate::fault::OpenFault;
use crate::log::PartLog;
use crate::marks::Marks;
use crate::reading::{add_info, read_lives, set_firsts};
use crate::rolling::name_segment;
use crate::scan::Scan;
use crate::segment::SegmentInfo;
use crate::table::{CELLS, TOKENS, manifest_bytes};
use disk_core::Disk;
use gate_slots::Slots;
use log_manifest::{LogSettings, Manifest, read_manifest};
use std::alloc::Global;

/// What an opening makes of a disk.
#[derive(Debug, Drop)]
pub(crate) struct Opened {
    pub(crate) slots: Slots,
    pub(crate) tokens: Slots,
    pub(crate) segments: Vec<SegmentInfo>,
    pub(crate) next_generation: u64,
    pub(crate) end: u64,
    pub(crate) marks: Marks,
}

/// Reads the log that a manifest names.
fn read_log<D: Disk, C: Collect>(
    alloc: Global,
    disk: &mut D,
    slots: Slots,
    tokens: Slots,
    manifest: &Manifest,
    collector: &mut C,
) -> Result<Opened, OpenFault>
    requires good { IsManifest manifest.now }
    requires ranges { AreInRange manifest.now.settings }
    requires size { D.size disk.old ≡ disk_size manifest.now.settings }
    requires base { slots.base ≡ 0 }
    requires only { D.tells → Only (D.content disk.old) }
    requires value { D.tells → (cell_at 0 (D.content disk.old).seen).value ≡ Some (manifest_text manifest.now) }
    requires loaded { D.tells → IsLoaded slots (D.content disk.old).seen }
    requires tokens { IsTokenSlot tokens }
    requires tokens_loaded { D.tells → IsLoaded tokens (D.content disk.old).seen }

    ensures during { D.tells → ChangesBy Same (D.content disk.old) (D.content disk.new) }
    ensures seen { D.tells → (D.content disk.new).seen ≡ (D.content disk.old).seen }
    ensures only { D.tells → Only (D.content disk.new) }
    ensures table { IfOk result (λ opened. IsTable (opened_table manifest.now.settings opened)) }
    ensures opened { IfOk result (λ opened. D.tells → (placed : List Placed) × IsOpened manifest.now.settings (D.content disk.old).seen opened (D.content disk.new) placed × TakesAll C.takes collector.old (found_of placed) collector.new) }

    ensures damaged { (at : ℕ) → IsErrOf result (OpenFault.Damaged at) → D.tells → EndBadly manifest.now.settings.segment (D.content disk.old).seen manifest.now.live at }
    ensures failed { IsErrOf result OpenFault.Failed → Rose (D.faults disk.old) (D.faults disk.new) }
    ensures settings { (other : LogSettings) → IsErrOf result (OpenFault.OtherShape other) → ⊥ }
    ensures disk_size { D.size disk.new ≡ D.size disk.old }
    ensures later { D.faults disk.old ≤ D.faults disk.new }
{
    let mut scan = Scan::new(alloc);
    let lives = manifest.live.as_slice();
    let settings = &manifest.settings;
    let mut segments = read_lives(alloc, disk, settings, lives, &mut scan, collector)?;
    let Scan {
        piece: _,
        next,
        marks,
    } = scan;
    let end = manifest.floor.max(next);
    set_firsts(&mut segments, end);
    let _below = slots.sequence();
    Ok(Opened {
        slots,
        tokens,
        segments,
        next_generation: manifest.next_generation,
        end,
        marks,
    })
}

/// Gives a new disk its first manifest.
fn format<D: Disk>(
    alloc: Global,
    disk: &mut D,
    mut slots: Slots,
    tokens: Slots,
    settings: LogSettings,
) -> Result<Opened, OpenFault>
    requires ranges { AreInRange settings }
    requires size { D.size disk.old ≡ disk_size settings }
    requires base { slots.base ≡ 0 }
    requires sequence { slots.sequence ≡ 0 }
    requires only { D.tells → Only (D.content disk.old) }
    requires value { D.tells → (cell_at 0 (D.content disk.old).seen).value ≡ None }
    requires loaded { D.tells → IsLoaded slots (D.content disk.old).seen }
    requires tokens { IsTokenSlot tokens }
    requires tokens_loaded { D.tells → IsLoaded tokens (D.content disk.old).seen }

    ensures during { D.tells → ChangesBy (OpensLog settings) (D.content disk.old) (D.content disk.new) }
    ensures opens { D.tells → OpensLog settings (D.content disk.old).seen (D.content disk.new).seen }
    ensures only { OnOk result (D.tells → Only (D.content disk.new)) }
    ensures table { IfOk result (λ opened. IsTable (opened_table settings opened)) }
    ensures opened { IfOk result (λ opened. D.tells → IsOpened settings (D.content disk.old).seen opened (D.content disk.new) []) }

    ensures damaged { (at : ℕ) → IsErrOf result (OpenFault.Damaged at) → ⊥ }
    ensures failed { IsErrOf result OpenFault.Failed → Rose (D.faults disk.old) (D.faults disk.new) }
    ensures settings { (other : LogSettings) → IsErrOf result (OpenFault.OtherShape other) → ⊥ }
    ensures disk_size { D.size disk.new ≡ D.size disk.old }
    ensures later { D.faults disk.old ≤ D.faults disk.new }
{
    let mut segments = Vec::new(alloc);
    let first = SegmentInfo {
        segment: 0,
        generation: 0,
        used: 0,
        first: 0,
    };
    add_info(&mut segments, first)?;
    let text = manifest_bytes(alloc, settings, &segments, 1, 0)?;
    name_segment(disk, &mut slots, CELLS, text.as_slice())?;
    Ok(Opened {
        slots,
        tokens,
        segments,
        next_generation: 1,
        end: 0,
        marks: Marks::new(alloc),
    })
}

/// Reads the log whose manifest's cell holds these bytes.
fn read_named<D: Disk, C: Collect>(
    alloc: Global,
    disk: &mut D,
    slots: Slots,
    tokens: Slots,
    settings: LogSettings,
    text: &[u8],
    collector: &mut C,
) -> Result<Opened, OpenFault>
    requires ranges { AreInRange settings }
    requires size { D.size disk.old ≡ disk_size settings }
    requires base { slots.base ≡ 0 }
    requires only { D.tells → Only (D.content disk.old) }
    requires value { D.tells → (cell_at 0 (D.content disk.old).seen).value ≡ Some text.now }
    requires loaded { D.tells → IsLoaded slots (D.content disk.old).seen }
    requires tokens { IsTokenSlot tokens }
    requires tokens_loaded { D.tells → IsLoaded tokens (D.content disk.old).seen }

    ensures during { D.tells → ChangesBy Same (D.content disk.old) (D.content disk.new) }
    ensures seen { D.tells → (D.content disk.new).seen ≡ (D.content disk.old).seen }
    ensures only { D.tells → Only (D.content disk.new) }
    ensures table { IfOk result (λ opened. IsTable (opened_table settings opened)) }
    ensures opened { IfOk result (λ opened. D.tells → (placed : List Placed) × IsOpened settings (D.content disk.old).seen opened (D.content disk.new) placed × TakesAll C.takes collector.old (found_of placed) collector.new) }

    ensures damaged { (at : ℕ) → IsErrOf result (OpenFault.Damaged at) → D.tells → IsDamaged settings (D.content disk.old).seen at }
    ensures settings { (other : LogSettings) → IsErrOf result (OpenFault.OtherShape other) → D.tells → NamesOther settings other (D.content disk.old).seen }
    ensures failed { IsErrOf result OpenFault.Failed → Rose (D.faults disk.old) (D.faults disk.new) }
    ensures disk_size { D.size disk.new ≡ D.size disk.old }
    ensures later { D.faults disk.old ≤ D.faults disk.new }
{
    let Some(manifest) = read_manifest(alloc, text)? else {
        return Err(OpenFault::Damaged(slots.place()));
    };
    if manifest.settings != settings {
        return Err(OpenFault::OtherShape(manifest.settings));
    }
    read_log(alloc, disk, slots, tokens, &manifest, collector)
}

/// Reads the token cell. Of it only the current slot is kept: whatever its bytes are, the log is opened.
fn load_tokens<D: Disk>(alloc: Global, disk: &mut D) -> Result<Slots, OpenFault>
    requires { 4096 ≤ D.size disk.old }
    ensures during { D.tells → ChangesBy Same (D.content disk.old) (D.content disk.new) }
    ensures seen { D.tells → (D.content disk.new).seen ≡ (D.content disk.old).seen }
    ensures only { D.tells → Only (D.content disk.old) → Only (D.content disk.new) }
    ensures tokens { IfOk result (λ tokens. IsTokenSlot tokens) }
    ensures loaded { IfOk result (λ tokens. D.tells → IsLoaded tokens (D.content disk.new).seen) }
    ensures damaged { (at : ℕ) → IsErrOf result (OpenFault.Damaged at) → ⊥ }
    ensures settings { (other : LogSettings) → IsErrOf result (OpenFault.OtherShape other) → ⊥ }
    ensures failed { IsErrOf result OpenFault.Failed → Rose (D.faults disk.old) (D.faults disk.new) }
    ensures disk_size { D.size disk.new ≡ D.size disk.old }
    ensures later { D.faults disk.old ≤ D.faults disk.new }
{
    let (tokens, _) = Slots::load(alloc, disk, TOKENS)?;
    let _below = tokens.sequence();
    Ok(tokens)
}

/// Syncs, and reads the log, or gives a new disk its first manifest.
fn open_disk<D: Disk, C: Collect>(
    alloc: Global,
    disk: &mut D,
    settings: LogSettings,
    collector: &mut C,
) -> Result<Opened, OpenFault>
    requires ranges { AreInRange settings }
    requires size { D.size disk.old ≡ disk_size settings }

    ensures during { D.tells → ChangesBy (OpensLog settings) (D.content disk.old) (D.content disk.new) }
    ensures opens { D.tells → OpensLog settings (D.content disk.old).seen (D.content disk.new).seen }
    ensures kept { D.tells → ((cell_at 0 (D.content disk.old).seen).value ≡ None → ⊥) → (D.content disk.new).seen ≡ (D.content disk.old).seen }
    ensures only { OnOk result (D.tells → Only (D.content disk.new)) }
    ensures table { IfOk result (λ opened. IsTable (opened_table settings opened)) }
    ensures opened { IfOk result (λ opened. D.tells → (placed : List Placed) × IsOpened settings (D.content disk.old).seen opened (D.content disk.new) placed × TakesAll C.takes collector.old (found_of placed) collector.new) }

    ensures damaged { (at : ℕ) → IsErrOf result (OpenFault.Damaged at) → D.tells → IsDamaged settings (D.content disk.old).seen at }
    ensures settings { (other : LogSettings) → IsErrOf result (OpenFault.OtherShape other) → D.tells → NamesOther settings other (D.content disk.old).seen }
    ensures failed { IsErrOf result OpenFault.Failed → Rose (D.faults disk.old) (D.faults disk.new) }
    ensures disk_size { D.size disk.new ≡ D.size disk.old }
    ensures later { D.faults disk.old ≤ D.faults disk.new }
{
    disk.sync()?;
    let (slots, value) = Slots::load(alloc, disk, 0)?;
    let tokens = load_tokens(alloc, disk)?;
    match value {
        Some(text) => read_named(
            alloc,
            disk,
            slots,
            tokens,
            settings,
            text.as_slice(),
            collector,
        ),
        None => format(alloc, disk, slots, tokens, settings),
    }
}

impl<D: Disk> PartLog<D> {
    /// Opens the log of a disk, and hands what it finds of its records to a collector, in log order. It begins with a sync and
    /// makes one pass over the records, of which it keeps none. A disk without a manifest is new, and is given one. A refusal
    /// hands the disk back; the collector may have taken some records then.
    pub fn open<C: Collect>(
        alloc: Global,
        mut disk: D,
        settings: LogSettings,
        collector: &mut C,
    ) -> Result<PartLog<D>, (OpenFault, D)>
        requires ranges { AreInRange settings }
        requires size { D.size disk ≡ disk_size settings }

        // The log has the records and the end lsn that the disk stood for, and the collector took those.
        ensures records { IfOk result (λ log. D.tells → (placed : List Placed) × IsLog log.table (D.content log.disk) placed
            × StandsFor settings (D.content disk).seen (records_of placed) log.table.end × TakesAll C.takes collector.old (found_of placed) collector.new) }
        ensures laid_out { IfOk result (λ log. D.tells → IsLaidOut settings (D.content disk).seen (layout_of log.table)) }
        ensures table { IfOk result (λ log. IsTable log.table × (log.table.settings ≡ settings) × (log.down ≡ false)) }

        // Of the disk nothing changes but that a new one is given a manifest.
        ensures during { IfOk result (λ log. D.tells → ChangesBy (OpensLog settings) (D.content disk) (D.content log.disk)) }
        ensures during_err { IfErr result (λ refusal. D.tells → ChangesBy (OpensLog settings) (D.content disk) (D.content refusal.1)) }
        ensures opens { IfOk result (λ log. D.tells → OpensLog settings (D.content disk).seen (D.content log.disk).seen) }
        ensures opens_err { IfErr result (λ refusal. D.tells → OpensLog settings (D.content disk).seen (D.content refusal.1).seen) }
        ensures kept { IfOk result (λ log. D.tells → ((cell_at 0 (D.content disk).seen).value ≡ None → ⊥) → (D.content log.disk).seen ≡ (D.content disk).seen) }
        ensures kept_err { IfErr result (λ refusal. D.tells → ((cell_at 0 (D.content disk).seen).value ≡ None → ⊥) → (D.content refusal.1).seen ≡ (D.content disk).seen) }
        ensures only { IfOk result (λ log. D.tells → Only (D.content log.disk)) }

        // A disk that stands for no log isn't opened, and why is said of its bytes.
        ensures damaged { IfErr result (λ refusal. (at : ℕ) → refusal.0 ≡ OpenFault.Damaged at → D.tells → IsDamaged settings (D.content disk).seen at) }
        ensures settings { IfErr result (λ refusal. (other : LogSettings) → refusal.0 ≡ OpenFault.OtherShape other → D.tells → NamesOther settings other (D.content disk).seen) }
        ensures failed { IfErr result (λ refusal. refusal.0 ≡ OpenFault.Failed → Rose (D.faults disk) (D.faults refusal.1)) }
        ensures disk_size { IfOk result (λ log. D.size log.disk ≡ D.size disk) }
        ensures disk_size_err { IfErr result (λ refusal. D.size refusal.1 ≡ D.size disk) }
        ensures later { IfOk result (λ log. D.faults disk ≤ D.faults log.disk) }
        ensures later_err { IfErr result (λ refusal. D.faults disk ≤ D.faults refusal.1) }
    {
        match open_disk(alloc, &mut disk, settings, collector) {
            Ok(opened) => {
                let Opened {
                    slots,
                    tokens,
                    segments,
                    next_generation,
                    end,
                    marks,
                } = opened;
                Ok(PartLog {
                    disk,
                    settings,
                    slots,
                    tokens,
                    segments,
                    next_generation,
                    end,
                    marks,
                    down: false,
                })
            }
            Err(fault) => Err((fault, disk)),
        }
    }
}
