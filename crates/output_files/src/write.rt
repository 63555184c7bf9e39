// Saving and showing what a call made.
ghost use Rattle.std.specs.Prelude.{◌≡◌, ◌⊎◌, Err, OnOk, IfErr, IsTrue};
ghost use Rattle.polis_base.specs.Host.{Rose, Changes};
ghost use Rattle.output_files.specs.Saves.{files_after};
ghost use Rattle.output_files.specs.Ends.{end_status, is_end};
ghost use Rattle.output_files.specs.Written.{LeftByWriting};
ghost use Rattle.output_files.specs.inner.Writing.{SavesText, ShowsLineOf, StopsSaving, ShowsText};

use crate::product::{End, Product, Saving};
use crate::show::{no_memory, show_lines};
use polis_base::{Host, Save};
use polis_words::Status;

// Saves a text. Where that fails, its line, or that memory ran out, is shown.
fn save_text<H: Host>(host: &mut H, saving: &Saving) -> Result<(), Status>
    ensures files { Changes (H.files host.old) (H.files host.new) (SavesText result saving.now) }
    ensures ok_shown { OnOk result (H.shown host.new ≡ H.shown host.old) }
    ensures ok_faults { OnOk result (H.write_faults host.new ≡ H.write_faults host.old) }
    ensures shown { IfErr result (λ status.
        Changes (H.shown host.old) (H.shown host.new)
        (ShowsLineOf status saving.now.name
        (Rose (H.write_faults host.old) (H.write_faults host.new)))) }
    ensures fault { result ≡ Err Status.WriteFault
        → Rose (H.write_faults host.old) (H.write_faults host.new) }
    ensures others { IfErr result (λ status. (status ≡ Status.WriteFault)
        ⊎ (status ≡ Status.NoMemory)) }
    ensures load_faults { H.load_faults host.new ≡ H.load_faults host.old }
{
    match host.save(saving.name(), saving.text()) {
        Save::Written => Ok(()),
        Save::Failed => {
            show_lines(host, saving.line());
            Err(Status::WriteFault)
        }
        Save::NoMemory => Err(no_memory(host)),
    }
}

// Saves the texts in order. The first save that fails ends it.
fn save_all<H: Host>(host: &mut H, saves: &[Saving]) -> Result<(), Status>
    ensures ok_files { OnOk result (Changes (H.files host.old) (H.files host.new)
        (λ before now. now ≡ files_after before saves.now)) }
    ensures ok_shown { OnOk result (H.shown host.new ≡ H.shown host.old) }
    ensures ok_faults { OnOk result (H.write_faults host.new ≡ H.write_faults host.old) }
    ensures stops { IfErr result (λ status.
        StopsSaving status saves.now (Rose (H.write_faults host.old) (H.write_faults host.new))
        (H.files host.old) (H.files host.new) (H.shown host.old) (H.shown host.new)) }
    ensures fault { result ≡ Err Status.WriteFault
        → Rose (H.write_faults host.old) (H.write_faults host.new) }
    ensures load_faults { H.load_faults host.new ≡ H.load_faults host.old }
{
    for saving in saves {
        match save_text(host, saving) {
            Ok(()) => {}
            Err(status) => return Err(status),
        }
    }
    Ok(())
}

// Shows a text after all saves, and gives the status with which the call then ends.
fn show_text<H: Host>(host: &mut H, text: &[u8], end: End) -> Status
    ensures shown { Changes (H.shown host.old) (H.shown host.new)
        (ShowsText result text.now (end_status end)
        (Rose (H.write_faults host.old) (H.write_faults host.new))) }
    ensures others { (result ≡ end_status end) ⊎ (result ≡ Status.WriteFault)
        ⊎ (result ≡ Status.NoMemory) }
    ensures fault { result ≡ Status.WriteFault
        → Rose (H.write_faults host.old) (H.write_faults host.new) }
    ensures end_faults { IsTrue (is_end result)
        → H.write_faults host.new ≡ H.write_faults host.old }
    ensures files { H.files host.new ≡ H.files host.old }
    ensures load_faults { H.load_faults host.new ≡ H.load_faults host.old }
{
    match host.show(text) {
        Save::Written => end.status(),
        Save::Failed => Status::WriteFault,
        Save::NoMemory => no_memory(host),
    }
}

/// Saves the texts of a product in order, and then shows its text. The first of these that fails
/// ends the call.
pub fn write_product<H: Host>(host: &mut H, product: &Product) -> Status
    ensures { LeftByWriting ⟦<H as Host>⟧ result product.now host.old host.new }
{
    match save_all(host, product.saves.as_slice()) {
        Ok(()) => show_text(host, product.shown.as_slice(), product.end),
        Err(status) => status,
    }
}
