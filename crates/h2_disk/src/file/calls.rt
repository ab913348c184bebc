ghost use Rattle.std.specs.Prelude.{◌≡◌, ◌+◌, ◌-◌, ◌^◌, ◌≤◌, ◌<◌, ◌↔◌, IsTrue, OnOk, OnErr, IfErr, IsErr, length, true, false, refl};
ghost use Rattle.h2_num.specs.Causes.{one_more};
ghost use Rattle.h2_disk.specs.Trace.{Opened};
ghost use Rattle.h2_disk.specs.TraceLaws.{latest-opened};
ghost use Rattle.h2_disk.specs.Faults.{IsCounted};
ghost use Rattle.h2_disk.specs.File.{file_faults, file_moment};
ghost use Rattle.h2_disk.specs.declared.disk.DiskFault.TheVariants.{Failed};

use super::FileDisk;
use super::transfer::{fill, put};
use crate::{Disk, DiskFault};
use std::fs::{OpenFile, OpenOptions};
use std::io::{self, Seek, SeekFrom};
use std::rt::Files;

/// A moment at which no write and no sync can begin any more, and each later one.
const END: u64 = u64::MAX - 1;

impl<R: Files + Drop> FileDisk<R> {
    /// A disk at moment 0 over the file of this path, which isn't opened yet.
    pub fn new(rt: R, path: String) -> FileDisk<R>
        ensures moment { file_moment result ≡ 0 }
        ensures faults { file_faults result ≡ 0 }
    {
        FileDisk {
            rt,
            path,
            file: None,
            faults: 0,
            moment: 0,
        }
    }

    // Opens or makes the file, if that wasn't done.
    fn open(&mut self) -> io::Result<()>
        ensures moment { self.new.moment ≡ self.old.moment }
        ensures faults { self.new.faults ≡ self.old.faults }
    {
        if self.file.is_none() {
            let mut options = OpenOptions::new();
            options.read(true).write(true).create(true);
            self.file = Some(options.open(&self.rt, self.path.as_str())?);
        }
        Ok(())
    }

    fn read_file(&mut self, at: u64, buf: &mut [u8]) -> io::Result<()>
        ensures moment { self.new.moment ≡ self.old.moment }
        ensures faults { self.new.faults ≡ self.old.faults }
    {
        self.open()?;
        if let Some(file) = &mut self.file {
            file.seek(SeekFrom::Start(at))?;
            fill(file, buf)?;
        }
        Ok(())
    }

    fn write_file(&mut self, at: u64, bytes: &[u8]) -> io::Result<()>
        ensures moment { self.new.moment ≡ self.old.moment }
        ensures faults { self.new.faults ≡ self.old.faults }
    {
        self.open()?;
        if let Some(file) = &mut self.file {
            file.seek(SeekFrom::Start(at))?;
            put(file, bytes)?;
        }
        Ok(())
    }

    fn sync_file(&self) -> io::Result<()> {
        match &self.file {
            Some(file) => file.sync_all(),
            None => Ok(()),
        }
    }

    // A write or a sync begins, if a moment is left for it.
    fn begin(&mut self) -> bool
        ensures begun { IsTrue result ↔ (self.old.moment < 2 ^ 64 - 2) }
        ensures moment { self.new.moment ≡ one_more self.old.moment }
        ensures faults { self.new.faults ≡ self.old.faults }
    {
        let begins = self.moment < END;
        self.moment = self.moment.saturating_add(1);
        begins
    }

    // Counts a fault.
    fn fault(&mut self) -> DiskFault
        ensures failed { result ≡ Failed }
        ensures moment { self.new.moment ≡ self.old.moment }
        ensures faults { self.new.faults ≡ one_more self.old.faults }
        ensures later { self.old.faults ≤ self.new.faults }
    {
        self.faults = self.faults.saturating_add(1);
        DiskFault::Failed
    }
}

impl<R: Files + Drop> Disk for FileDisk<R> {
    ghost tells = { false };

    ghost image = { λ disk k. 0 };

    ghost trace = { λ disk. Opened (λ k. 0) };

    ghost faults = { file_faults };

    ghost wants = { λ disk. 0 };

    ghost moment = { file_moment };

    ghost moment_fits = { λ disk. disk.fits };

    ghost trace_past = { λ disk. latest-opened (λ k. 0) disk.moment };

    ghost left_now = { λ disk tells k unwritten. refl };

    /// Fills the buffer with the file's bytes from the place on; past the file's end stand zeros. Each
    /// error is one fault.
    fn read(&mut self, at: u64, buf: &mut [u8]) -> Result<(), DiskFault>
        ensures time { file_moment self.new ≡ file_moment self.old }
        ensures later { file_faults self.old ≤ file_faults self.new }
        ensures counted { IsCounted (file_faults self.old) (file_faults self.new) result }
        ensures memory { IfErr result (λ fault. fault ≡ Failed) }
    {
        if self.read_file(at, buf).is_err() {
            return Err(self.fault());
        }
        Ok(())
    }

    /// Puts the bytes at the place of the file. Each error is one fault, and so is each write from moment
    /// 2^64 - 2 on.
    fn write(&mut self, at: u64, bytes: &[u8]) -> Result<(), DiskFault>
        ensures time { file_moment self.new ≡ one_more (file_moment self.old) }
        ensures end { 2 ^ 64 - 2 ≤ file_moment self.old → IsErr result }
        ensures later { file_faults self.old ≤ file_faults self.new }
        ensures counted { IsCounted (file_faults self.old) (file_faults self.new) result }
        ensures memory { IfErr result (λ fault. fault ≡ Failed) }
    {
        if !self.begin() || self.write_file(at, bytes).is_err() {
            return Err(self.fault());
        }
        Ok(())
    }

    /// Makes the file durable; where it isn't opened yet, this does nothing. Each error is one fault, and
    /// so is each sync from moment 2^64 - 2 on.
    fn sync(&mut self) -> Result<(), DiskFault>
        ensures time { OnOk result (file_moment self.new ≡ file_moment self.old + 2) }
        ensures time_failed { OnErr result (file_moment self.new ≡ one_more (file_moment self.old)) }
        ensures end { 2 ^ 64 - 2 ≤ file_moment self.old → IsErr result }
        ensures later { file_faults self.old ≤ file_faults self.new }
        ensures counted { IsCounted (file_faults self.old) (file_faults self.new) result }
        ensures memory { IfErr result (λ fault. fault ≡ Failed) }
    {
        if !self.begin() || self.sync_file().is_err() {
            return Err(self.fault());
        }
        self.moment += 1;
        Ok(())
    }

    fn moment(&self) -> u64 {
        self.moment
    }
}
