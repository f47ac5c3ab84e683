//! The lines that report faults.

ghost use Rattle.std.specs.Prelude.{◌≡◌, ◌≢◌, ◌⊎◌, [], codes, OnOk};
ghost use Rattle.pm_disk.specs.States.{IsLaterState, Rose};
ghost use Rattle.pm_disk.specs.Moments.{AllMoments};
ghost use Rattle.pm_disk.specs.Worlds.{with_said};
ghost use Rattle.pm_top.specs.Configurations.{fault_config};
ghost use Rattle.pm_top.specs.Promises.{SaysPart, fault_page, fault_record};

use crate::status::Status;
use itoa::Buffer;
use pm_config::field_name;
use pm_disk::Host;
use pm_tools::append_page;
use pm_types::{Field, PageId, Place};
use std::alloc::{AllocError, Global};

/// Prints the line that says that the words aren't a command. Gives `Usage`, or `Failed` where that fails.
pub fn print_usage_fault<H: Host>(host: &mut H) -> Status
    ensures usage { H.tells → result ≡ Status.Usage →
        (H.history host.new).world ≡ with_said (codes "fault usage\n") (H.history host.old).world }
    ensures moments { H.tells → AllMoments (H.history host.old) (H.history host.new)
        (SaysPart (codes "fault usage\n") (H.history host.old).world) }
    ensures cases { (result ≡ Status.Usage) ⊎ (result ≡ Status.Failed) }
    ensures failed { result ≡ Status.Failed → Rose (H.state host.old) (H.state host.new) }
    ensures state { IsLaterState (H.state host.old) (H.state host.new) }
{
    print_fault(host, b"fault usage\n", Status::Usage)
}

/// Prints the line that says that the script passes a limit. Gives `Long`, or `Failed` where that fails.
pub fn print_limit_fault<H: Host>(host: &mut H) -> Status
    ensures long { H.tells → result ≡ Status.Long →
        (H.history host.new).world ≡ with_said (codes "fault long\n") (H.history host.old).world }
    ensures moments { H.tells → AllMoments (H.history host.old) (H.history host.new)
        (SaysPart (codes "fault long\n") (H.history host.old).world) }
    ensures cases { (result ≡ Status.Long) ⊎ (result ≡ Status.Failed) }
    ensures failed { result ≡ Status.Failed → Rose (H.state host.old) (H.state host.new) }
    ensures state { IsLaterState (H.state host.old) (H.state host.new) }
{
    print_fault(host, b"fault long\n", Status::Long)
}

/// Prints the line that names a record that is bad. Gives `Damaged`, or `Failed` where that fails.
/// Where there is no memory for it nothing is printed, and it gives `Memory`.
pub fn print_record_fault<H: Host>(alloc: Global, host: &mut H, at: Place) -> Status
    ensures damaged { H.tells → result ≡ Status.Damaged →
        (H.history host.new).world ≡ with_said (fault_record at) (H.history host.old).world }
    ensures moments { H.tells → AllMoments (H.history host.old) (H.history host.new)
        (SaysPart (fault_record at) (H.history host.old).world) }
    ensures cases { (result ≡ Status.Damaged) ⊎ (result ≡ Status.Failed) ⊎ (result ≡ Status.Memory) }
    ensures failed { result ≡ Status.Failed → Rose (H.state host.old) (H.state host.new) }
    ensures state { IsLaterState (H.state host.old) (H.state host.new) }
{
    let mut text = Vec::new(alloc);
    match write_record_fault(at, &mut text) {
        Ok(()) => print_fault(host, &text, Status::Damaged),
        Err(_) => Status::Memory,
    }
}

/// Prints the line that names a page that is bad. Gives `Damaged`, or `Failed` where that fails.
/// Where there is no memory for it nothing is printed, and it gives `Memory`.
pub fn print_page_fault<H: Host>(alloc: Global, host: &mut H, page: PageId) -> Status
    ensures damaged { H.tells → result ≡ Status.Damaged →
        (H.history host.new).world ≡ with_said (fault_page page) (H.history host.old).world }
    ensures moments { H.tells → AllMoments (H.history host.old) (H.history host.new)
        (SaysPart (fault_page page) (H.history host.old).world) }
    ensures cases { (result ≡ Status.Damaged) ⊎ (result ≡ Status.Failed) ⊎ (result ≡ Status.Memory) }
    ensures failed { result ≡ Status.Failed → Rose (H.state host.old) (H.state host.new) }
    ensures state { IsLaterState (H.state host.old) (H.state host.new) }
{
    let mut text = Vec::new(alloc);
    match write_page_fault(page, &mut text) {
        Ok(()) => print_fault(host, &text, Status::Damaged),
        Err(_) => Status::Memory,
    }
}

/// Prints the line that names a field of the configuration that is refused. Gives `Misconfigured`,
/// or `Failed` where that fails. Where there is no memory for it nothing is printed, and it gives
/// `Memory`.
pub fn print_config_fault<H: Host>(alloc: Global, host: &mut H, field: Field) -> Status
    ensures misconfigured { H.tells → result ≡ Status.Misconfigured →
        (H.history host.new).world ≡ with_said (fault_config field) (H.history host.old).world }
    ensures moments { H.tells → AllMoments (H.history host.old) (H.history host.new)
        (SaysPart (fault_config field) (H.history host.old).world) }
    ensures cases { (result ≡ Status.Misconfigured) ⊎ (result ≡ Status.Failed) ⊎ (result ≡ Status.Memory) }
    ensures failed { result ≡ Status.Failed → Rose (H.state host.old) (H.state host.new) }
    ensures state { IsLaterState (H.state host.old) (H.state host.new) }
{
    let mut text = Vec::new(alloc);
    match write_config_fault(field, &mut text) {
        Ok(()) => print_fault(host, &text, Status::Misconfigured),
        Err(_) => Status::Memory,
    }
}

// Prints a line, and gives this status, or `Failed` where that fails.
fn print_fault<H: Host>(host: &mut H, text: &[u8], status: Status) -> Status
    requires { status ≢ Status.Failed }
    ensures said { H.tells → result ≡ status →
        (H.history host.new).world ≡ with_said text.now (H.history host.old).world }
    ensures moments { H.tells → AllMoments (H.history host.old) (H.history host.new)
        (SaysPart text.now (H.history host.old).world) }
    ensures cases { (result ≡ status) ⊎ (result ≡ Status.Failed) }
    ensures failed { result ≡ Status.Failed → Rose (H.state host.old) (H.state host.new) }
    ensures state { IsLaterState (H.state host.old) (H.state host.new) }
{
    match host.print(text) {
        Ok(()) => status,
        Err(_) => Status::Failed,
    }
}

// Writes the line that names a field of the configuration.
fn write_config_fault(field: Field, into: &mut Vec<u8>) -> Result<(), AllocError>
    requires { into.old.items ≡ [] }
    ensures { OnOk result (into.new.items ≡ fault_config field) }
{
    into.extend_from_slice(b"fault config ")?;
    into.extend_from_slice(field_name(field).as_bytes())?;
    into.extend_from_slice(b"\n")
}

// Writes the line that names a record.
fn write_record_fault(at: Place, into: &mut Vec<u8>) -> Result<(), AllocError>
    requires { into.old.items ≡ [] }
    ensures { OnOk result (into.new.items ≡ fault_record at) }
{
    into.extend_from_slice(b"fault record ")?;
    into.extend_from_slice(Buffer::new().format(at.seg).as_bytes())?;
    into.extend_from_slice(b":")?;
    into.extend_from_slice(Buffer::new().format(at.off).as_bytes())?;
    into.extend_from_slice(b"\n")
}

// Writes the line that names a page.
fn write_page_fault(page: PageId, into: &mut Vec<u8>) -> Result<(), AllocError>
    requires { into.old.items ≡ [] }
    ensures { OnOk result (into.new.items ≡ fault_page page) }
{
    into.extend_from_slice(b"fault page ")?;
    append_page(page, into)?;
    into.extend_from_slice(b"\n")
}
