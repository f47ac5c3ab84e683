//! The buffer of a reader.

ghost use Rattle.std.specs.Prelude.{◌≡◌, ◌≤◌, ◌<◌, ◌+◌, ◌-◌, ℕ, length, take, drop, not, IfOk, OnOk};
ghost use Rattle.std.specs.Prelude.{OnErr, Option};
ghost use Rattle.pm_disk.specs.States.{HasCause, IsUsable};
ghost use Rattle.pm_disk.specs.Moments.{Does, AllMoments};
ghost use Rattle.pm_script.specs.Lines.{is_unbroken};
ghost use Rattle.pm_script.specs.Reading.{cut, FindsNewline, OnlyTakes, ReadsAfter};

use memchr::memchr;
use pm_disk::{Failed, Host};
use pm_types::LINE_MAX;

/// Where the first newline stands.
pub fn newline_position(bytes: &[u8]) -> Option<usize>
    ensures { FindsNewline bytes.now result }
{
    memchr(b'\n', bytes)
}

/// Whether a newline stands in the bytes.
pub fn has_newline(bytes: &[u8]) -> bool
    ensures { result ≡ not (is_unbroken bytes.now) }
{
    newline_position(bytes).is_some()
}

/// Moves a part of the buffer to its front, at most one byte more than a line may have, and says how much.
pub fn keep_front(buffer: &mut Vec<u8>, from: usize, to: usize) -> usize
    requires ordered { from ≤ to }
    requires within { to ≤ length buffer.old.items }
    ensures kept { take result buffer.new.items ≡ cut (take (to - from) (drop from
        buffer.old.items)) }
    ensures short { result ≤ LINE_MAX + 1 }
    ensures within { result ≤ length buffer.new.items }
    ensures same_length { length buffer.new.items ≡ length buffer.old.items }
{
    let len = (to - from).min(LINE_MAX + 1);
    buffer.copy_within(from..from + len, 0);
    len
}

/// Reads the next piece of the input into the buffer after its first `kept` bytes.
pub fn read_after<H: Host>(host: &mut H, buffer: &mut Vec<u8>, kept: usize) -> Result<usize, Failed>
    requires usable { IsUsable (H.state host.old) }
    requires room { kept < length buffer.old.items }
    ensures front { take kept buffer.new.items ≡ take kept buffer.old.items }
    ensures same_length { length buffer.new.items ≡ length buffer.old.items }
    ensures bound { IfOk result (λ n. kept + n ≤ length buffer.new.items) }
    ensures read { H.tells → IfOk result (ReadsAfter (H.history host.old).world.input
        (H.history host.new).world.input (drop kept buffer.new.items)) }
    ensures takes { H.tells → AllMoments (H.history host.old) (H.history host.new) (OnlyTakes
        (H.history host.old).world) }
    ensures cause { HasCause (H.state host.old) (H.state host.new) result }
{
    host.read(&mut buffer[kept..])
}
