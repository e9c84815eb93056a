//! Journals that were cut off.

ghost use Rattle.std.specs.Prelude.{◌≡◌, ◌++◌, IfOk, OnOk};
ghost use Rattle.rw_answers.specs.Salvages.{kept_line, salvage_page};

use crate::pages::fault_page;
use rw_law::NoMemory;
use rw_lines::push_number;
use rw_text::TextFault;
use std::alloc::{AllocError, Global};

/// Appends how many bytes were kept.
fn push_kept(out: &mut Vec<u8>, count: u64) -> Result<(), AllocError>
    ensures { OnOk result (out.new.items ≡ out.old.items ++ kept_line count) }
{
    out.extend_from_slice(b"kept ")?;
    push_number(out, count)?;
    out.extend_from_slice(b" bytes\n")
}

/// Returns how many bytes the whole lines of a journal text have, and the journal text of their run. Or it returns the text's
/// first fault.
pub fn salvage_page(alloc: Global, journal: &[u8]) -> Result<Vec<u8>, NoMemory>
    ensures { IfOk result (λ text. text.items ≡ salvage_page journal.now) }
{
    let (run, count) = match rw_text::salvage::<u64>(alloc, journal) {
        Ok(salvaged) => salvaged,
        Err(TextFault::NoMemory) => return Err(NoMemory),
        Err(fault) => return fault_page(alloc, fault),
    };
    let mut text = Vec::new(alloc);
    push_kept(&mut text, count)?;
    match rw_text::write(&run, &mut text) {
        Ok(_) => Ok(text),
        Err(_) => Err(NoMemory),
    }
}
