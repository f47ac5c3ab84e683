//! How the engine over page frames ends a batch, a run and an opening: with a checkpoint where one is due.

ghost use Rattle.std.specs.Prelude.{◌≡◌, ℕ, [], true, false, length, IfErr, OnOk};
ghost use Rattle.pm_disk.specs.States.{IsUsable};
ghost use Rattle.pm_model.specs.ReplyLists.{ReplyList};
ghost use Rattle.pm_segments.specs.Ends.{EndsThere};
ghost use Rattle.pm_engine.specs.Batches.{HasPlainFault};
ghost use Rattle.pm_engine.specs.FrameBatches.{is_due_idle, is_due_past, LooksAtEngine, EndsAtReplayIn};
ghost use Rattle.pm_engine.specs.FrameBatches.{RunsFrameBatch, LeavesAllLastingIn, LeavesAllAtRest};
ghost use Rattle.pm_engine.specs.FrameBatches.{SettlesEngine, TakesNumbersIn};
ghost use Rattle.pm_engine.specs.FrameStores.{HasCleanPages};
ghost use Rattle.pm_engine.specs.Batches.{StaysOpen};

use crate::engine::Engine;
use crate::log_count::idle_bytes;
use pm_config::Config;
use pm_disk::Host;
use pm_types::StoreFault;

impl Engine {
    /// Ends a run: forces the log, and makes a checkpoint where one is due, or where more bytes of log stand after the
    /// last one than a run is to leave to the next opening. It takes no memory. The configuration has as many frames
    /// as the engine.
    ///
    /// After `Failed` the engine is closed, and the store on the disk holds what it held.
    pub fn end_run<H: Host>(&mut self, host: &mut H, config: &Config) -> Result<(), StoreFault>
        requires usable { IsUsable (H.Device.state host.old) }
        requires is_open { self.old.store.is_open ≡ true }
        requires frames { config.now.frames ≡ length self.old.store.locks.ranges }
        requires end { H.Device.tells → EndsThere self.old.log (H.Device.history host.old).world }
        requires clean { H.Device.tells → HasCleanPages self.old.store (H.Device.history host.old).world }
        ensures runs { (first : ℕ) (list : ReplyList) → RunsFrameBatch H.Device.tells (H.Device.history host.old)
            (H.Device.history host.new) first [] 1 1 self.old self.new list list result }
        ensures lasts { LeavesAllLastingIn H.Device.tells (H.Device.history host.old)
            (H.Device.history host.new) [] 1 1 self.old self.new result }
        ensures rests { LeavesAllAtRest H.Device.tells (H.Device.history host.old) (H.Device.history host.new) 1 1
            self.old self.new result }
        ensures still { OnOk result (EndsAtReplayIn self.old → EndsAtReplayIn self.new) }
        ensures not_due { OnOk result (is_due_idle self.new config.now ≡ false) }
        ensures numbers { StaysOpen result → TakesNumbersIn self.old self.new 1 1 }
        ensures order { self.new.order ≡ self.old.order }
        ensures failed { IfErr result (λ fault. fault ≡ StoreFault.Failed) }
        ensures cause { HasPlainFault (H.Device.state host.old) (H.Device.state host.new) result }
    {
        self.end_batch(host, config, idle_bytes(config))
    }

    /// Forces the log, and makes a checkpoint where more than so many bytes of it are counted, or too many frames have a
    /// page that stays there. It takes no memory.
    ///
    /// After `Failed` the engine is closed, and the store on the disk holds what it held.
    pub(crate) fn end_batch<H: Host>(
        &mut self,
        host: &mut H,
        config: &Config,
        most: u64,
    ) -> Result<(), StoreFault>
        requires usable { IsUsable (H.Device.state host.old) }
        requires is_open { self.old.store.is_open ≡ true }
        requires frames { config.now.frames ≡ length self.old.store.locks.ranges }
        requires end { H.Device.tells → EndsThere self.old.log (H.Device.history host.old).world }
        requires clean { H.Device.tells → HasCleanPages self.old.store (H.Device.history host.old).world }
        ensures runs { (first : ℕ) (list : ReplyList) → RunsFrameBatch H.Device.tells (H.Device.history host.old)
            (H.Device.history host.new) first [] 1 1 self.old self.new list list result }
        ensures lasts { LeavesAllLastingIn H.Device.tells (H.Device.history host.old)
            (H.Device.history host.new) [] 1 1 self.old self.new result }
        ensures rests { LeavesAllAtRest H.Device.tells (H.Device.history host.old) (H.Device.history host.new) 1 1
            self.old self.new result }
        ensures still { OnOk result (EndsAtReplayIn self.old → EndsAtReplayIn self.new) }
        ensures not_due { OnOk result (is_due_past most self.new config.now ≡ false) }
        ensures numbers { StaysOpen result → TakesNumbersIn self.old self.new 1 1 }
        ensures order { self.new.order ≡ self.old.order }
        ensures failed { IfErr result (λ fault. fault ≡ StoreFault.Failed) }
        ensures cause { HasPlainFault (H.Device.state host.old) (H.Device.state host.new) result }
    {
        match self.force(host) {
            Err(_) => Err(StoreFault::Failed),
            Ok(()) => {
                if !self.is_due(config, most) {
                    return Ok(());
                }
                self.checkpoint_between(host)
            }
        }
    }

    /// Makes a checkpoint where one is due, or where more bytes of log are counted than an opening is to leave to the
    /// next one. It takes no memory.
    ///
    /// After `Failed` the engine is closed, and the store on the disk holds what it held.
    pub(crate) fn settle<H: Host>(
        &mut self,
        host: &mut H,
        config: &Config,
    ) -> Result<(), StoreFault>
        requires usable { IsUsable (H.Device.state host.old) }
        requires is_open { self.old.store.is_open ≡ true }
        requires frames { config.now.frames ≡ length self.old.store.locks.ranges }
        requires end { H.Device.tells → EndsThere self.old.log (H.Device.history host.old).world }
        requires clean { H.Device.tells → HasCleanPages self.old.store (H.Device.history host.old).world }
        ensures settles { SettlesEngine H.Device.tells (H.Device.history host.old) (H.Device.history host.new)
            config.now self.old self.new result }
        ensures cause { HasPlainFault (H.Device.state host.old) (H.Device.state host.new) result }
    {
        if !self.is_due(config, idle_bytes(config)) {
            return Ok(());
        }
        self.checkpoint_between(host)
    }

    // Whether more than so many bytes of log are counted, or more than this percentage of the frames have a page that
    // stays there.
    fn is_due(&mut self, config: &Config, most: u64) -> bool
        requires is_open { self.old.store.is_open ≡ true }
        requires frames { config.now.frames ≡ length self.old.store.locks.ranges }
        ensures due { result ≡ is_due_past most self.old config.now }
        ensures looks { LooksAtEngine self.old self.new }
    {
        let is_long = self.began.is_over(self.log.appended(), most);
        let dirty = 100 * u64::from(self.pages.dirty_frames(config.frames));
        let most_dirty = u64::from(config.dirty_percent) * u64::from(config.frames);
        is_long || dirty > most_dirty
    }
}
