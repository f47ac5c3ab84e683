//! Disk and console in memory.

ghost use Rattle.std.specs.Prelude.{◌≡◌, ◌<◌, [], true, false, replicate, vec_len, vec_capacity, IfOk, None, Some, OnOk, OnErr};
ghost use Rattle.pm_disk.specs.Files.{content, gapped, missing};
ghost use Rattle.pm_disk.specs.Moments.{Does};
ghost use Rattle.pm_disk.specs.Images.{LeavesAll};
ghost use Rattle.pm_disk_mem.specs.Disks.{image_of, no_files, world_from};
ghost use Rattle.pm_disk_mem.specs.Held.{file_of, file_changed};
ghost use Rattle.pm_disk_mem.specs.Picks.{IsPicked};
ghost use Rattle.pm_disk_mem.specs.Plans.{IsStepCounted};
ghost use Rattle.pm_disk_mem.specs.Steps.{CanStep, HoldsWorld, start_world, stepped};
ghost use Rattle.pm_disk_mem.specs.Events.{after_events};

use crate::bytes::write_with_gap;
use crate::config::{as_file, chosen};
use crate::console::Console;
use crate::disk::MemDisk;
use crate::event::Event;
use crate::failures::Failures;
use crate::files::Files;
use crate::pick::Pick;
use crate::presence::Presence;
use crate::step::{ChangedFile, Step};
use crate::work::make;
use pm_disk::{Device, Failed};
use std::alloc::{AllocError, Global};
use std::snapshot::Snapshot;

/// Disk and console in memory.
#[derive(Drop)]
pub struct MemHost {
    pub(crate) alloc: Global,
    pub(crate) files: Files,
    pub(crate) console: Console,
    pub(crate) config: Vec<u8>,
    // The files as they were at first.
    pub(crate) began: Snapshot<Files>,
    pub(crate) events: Vec<Event>,
    pub(crate) failures: Failures,
    // The name of the folder that is bound.
    pub(crate) folder: Option<String>,
    // Whether the folder is there.
    pub(crate) presence: Presence,
    // Whether the parts are lent.
    pub(crate) is_lent: bool,
    ghost stands: { HoldsWorld files console
        (after_events events.items (start_world began.value config.items console.script.items)) },
    ghost room: { is_lent ≡ true → vec_len events < vec_capacity events },
}

impl MemHost {
    ghost use Rattle.pm_disk_mem.specs.Hosts.{world_of, history_of, calls_of, faults_of, folder_of};
    ghost use Rattle.pm_disk_mem.specs.Hosts.{IsPlanned, KeepsAccess};

    /// A host over this disk, with a copy of the script as its input and of the bytes of the configuration.
    /// Where these are none, it has the configuration of the disk.
    ///
    /// The folder is there, and not bound yet. Of its calls that can fail, counted from 0, those fail whose number is in
    /// `failing`, and from the number `stop` on all. Each other one fails only when it is out of memory.
    pub fn new(
        alloc: Global,
        script: &[u8],
        config: &[u8],
        disk: MemDisk,
        failing: &[u64],
        stop: Option<u64>,
    ) -> Result<MemHost, AllocError>
        ensures world { IfOk result (λ host. world_of host ≡ world_from disk script.now config.now) }
        ensures uncalled { IfOk result (λ host. calls_of host ≡ 0) }
        ensures unfailed { IfOk result (λ host. faults_of host ≡ 0) }
        ensures plan { IfOk result (λ host. IsPlanned host failing.now stop) }
        ensures unbound { IfOk result (λ host. folder_of host ≡ None) }
        ensures whole { IfOk result (λ host. host.is_lent ≡ false) }
        ensures found { IfOk result (λ host. host.presence ≡ Presence.Found) }
    {
        let (parts, stored) = disk.into_parts();
        let files = Files::new(alloc, parts)?;
        Ok(MemHost {
            alloc,
            console: Console::new(alloc, script)?,
            config: chosen(alloc, config, &stored)?,
            began: Snapshot::of(&files),
            files,
            events: Vec::new(alloc),
            failures: Failures::new(alloc, failing, stop)?,
            folder: None,
            presence: Presence::Found,
            is_lent: false,
        })
    }

    /// A host where no folder is there yet, so no file and no configuration. All else is as with `new`.
    pub fn without_folder(
        alloc: Global,
        script: &[u8],
        failing: &[u64],
        stop: Option<u64>,
    ) -> Result<MemHost, AllocError>
        ensures world { IfOk result (λ host. world_of host ≡ world_from no_files script.now []) }
        ensures uncalled { IfOk result (λ host. calls_of host ≡ 0) }
        ensures unfailed { IfOk result (λ host. faults_of host ≡ 0) }
        ensures plan { IfOk result (λ host. IsPlanned host failing.now stop) }
        ensures unbound { IfOk result (λ host. folder_of host ≡ None) }
        ensures whole { IfOk result (λ host. host.is_lent ≡ false) }
        ensures missing { IfOk result (λ host. host.presence ≡ Presence.Missing) }
    {
        let mut host = MemHost::new(alloc, script, &[], MemDisk::empty(alloc), failing, stop)?;
        host.presence = Presence::Missing;
        Ok(host)
    }

    /// What was said so far.
    pub fn said(&self) -> &[u8]
        ensures { result.now ≡ (world_of self.now).said }
    {
        &self.console.said
    }

    /// How many calls were made that can fail.
    pub fn calls(&self) -> u64
        ensures { result ≡ calls_of self.now }
    {
        self.failures.calls
    }

    /// What a crash at this moment leaves of the disk: of its images the one that the pick says.
    pub fn image(&self, alloc: Global, pick: Pick) -> Result<MemDisk, AllocError>
        ensures picked { IfOk result (λ disk. IsPicked pick (world_of self.now) disk) }
        ensures leaves { IfOk result (λ disk. LeavesAll (world_of self.now) (image_of disk)) }
    {
        let parts = self.files.image(alloc, pick)?;
        let config = as_file(alloc, &self.config)?;
        Ok(MemDisk::from_parts(alloc, parts, config))
    }

    /// Writes the bytes at the offset, with zeros from the file's end on where it ends before that.
    pub(crate) fn write_at(
        &mut self,
        file: ChangedFile,
        at: u64,
        bytes: &[u8],
    ) -> Result<(), Failed>
        ensures does { let was = content (file_of (world_of self.old) file) in
            Does (history_of self.old) (history_of self.new) result (file_changed file
            (gapped was at (replicate (missing at was) 0) bytes.now) (world_of self.old)) }
        ensures unchanged { OnErr result (world_of self.new ≡ world_of self.old) }
        ensures counted { KeepsAccess self.old self.new result }
    {
        let len = self.files.len(file).unwrap_or(0);
        let written = write_with_gap(self.alloc, len, at, bytes);
        let change = self.failures.counted(written)?;
        self.run(Step::Change(file, change))
    }

    /// Does the step and keeps it in the record. Out of memory fails the call.
    pub(crate) fn run(&mut self, step: Step) -> Result<(), Failed>
        requires { CanStep step self.old.files self.old.console }
        ensures does { Does (history_of self.old) (history_of self.new) result
            (stepped step (world_of self.old)) }
        ensures unchanged { OnErr result (world_of self.new ≡ world_of self.old) }
        ensures counted { KeepsAccess self.old self.new result }
    {
        let made = self.record_step(step);
        self.failures.counted(made)
    }

    /// Keeps the name of the folder that is bound. Out of memory fails the call.
    pub(crate) fn take_name(&mut self, dir: &str) -> Result<(), Failed>
        ensures bound { OnOk result (folder_of self.new ≡ Some dir.now) }
        ensures unchanged { OnErr result (self.new.folder ≡ self.old.folder) }
        ensures presence { self.new.presence ≡ self.old.presence }
        ensures is_lent { self.new.is_lent ≡ self.old.is_lent }
        ensures does { Does (history_of self.old) (history_of self.new) result (world_of self.old) }
        ensures counted { IsStepCounted self.old.failures self.new.failures result }
    {
        let name = self.failures.counted(String::from_str(self.alloc, dir))?;
        self.folder = Some(name);
        Ok(())
    }

    // Does the step and keeps it in the record, in which there is room before anything is changed.
    fn record_step(&mut self, step: Step) -> Result<(), AllocError>
        requires { CanStep step self.old.files self.old.console }
        ensures does { Does (history_of self.old) (history_of self.new) result
            (stepped step (world_of self.old)) }
        ensures unchanged { OnErr result (world_of self.new ≡ world_of self.old) }
        ensures failures { self.new.failures ≡ self.old.failures }
        ensures folder { self.new.folder ≡ self.old.folder }
        ensures presence { self.new.presence ≡ self.old.presence }
        ensures is_lent { self.new.is_lent ≡ self.old.is_lent }
    {
        // Room for a round too, should one be going on.
        self.events.reserve(2)?;
        make(self.alloc, &mut self.files, &mut self.console, &step)?;
        self.events.push_reserved(Event::Single(step));
        Ok(())
    }
}

impl Device for MemHost {
    ghost use Rattle.pm_disk_mem.specs.Hosts.{first_world, events_of, history_of, state_of};
    ghost use Rattle.pm_disk_mem.specs.Sound.{sound_during};

    ghost tells = { Unit {0} };

    ghost history = { history_of };

    ghost state = { state_of };

    ghost sound = { λ host _. sound_during (first_world host) (events_of host) };
}
