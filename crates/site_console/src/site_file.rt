//! The site file.
ghost use Rattle.std.specs.Prelude.{◌≡◌, ◌<◌, ◌⊎◌, ◌+◌, ◌++◌, length, IfOk, IfErr};
ghost use Rattle.std.specs.Io.KnownBytes.{IsAtEnd};
ghost use Rattle.outside.specs.Causes.{HasCauseIf};
ghost use Rattle.outside.specs.Devices.{Takes};
ghost use Rattle.site_console.specs.Files.{IsWhole, ReadsSetup, SaysSetup, ending_of_file, is_source_fault, number_of};
ghost use Rattle.site_console.specs.declared.site_file.SiteFault.TheVariants.{Source, Memory};

use crate::ending::Ending;
use deed_words::Setup;
use outside::Source;
use site_files::{FileFault, read_site};
use std::alloc::{AllocError, Global};

/// How long a site file may be.
const SITE_LIMIT: usize = 1_048_576;

const PIECE: usize = 4096;

/// Why a site file gives no setup.
#[derive(Clone, Copy, Debug, PartialEq, Eq)]
pub(crate) enum SiteFault {
    /// It has the fault with this number, 1 to 5.
    Unreadable(u8),
    /// It couldn't be read.
    Source,
    /// Memory was wanting.
    Memory,
}

impl From<AllocError> for SiteFault {
    ghost use Rattle.site_console.specs.declared.site_file.SiteFault.TheVariants.{Memory};

    ghost from_gives = { λ _ e. e ≡ Memory };

    fn from(_: AllocError) -> Self {
        SiteFault::Memory
    }
}

/// The setup that a site file says.
pub(crate) fn read_setup<S: Source>(alloc: Global, site: &mut S) -> Result<Setup, SiteFault>
    ensures reads { Takes (S.left site.old) (S.left site.new) (λ bytes. ReadsSetup (S.left site.new) bytes result) }
    ensures cause { HasCauseIf (is_source_fault result) (S.read_faults site.old) (S.read_faults site.new) }
{
    match take_file(alloc, site) {
        Ok(bytes) => setup_in(alloc, &bytes),
        Err(fault) => Err(fault),
    }
}

/// The bytes of a site file: all of them, or the first ones that pass the limit.
fn take_file<S: Source>(alloc: Global, site: &mut S) -> Result<Vec<u8>, SiteFault>
    ensures takes { Takes (S.left site.old) (S.left site.new) (λ bytes. IfOk result (λ file. (file.items ≡ bytes) × IsWhole (S.left site.new) bytes)) }
    ensures cause { HasCauseIf (is_source_fault result) (S.read_faults site.old) (S.read_faults site.new) }
    ensures fault { IfErr result (λ e. (e ≡ Source) ⊎ (e ≡ Memory)) }
{
    let mut bytes = Vec::new(alloc);
    let mut piece = vec![in alloc; 0; PIECE]?;
    'pieces: while bytes.len() <= SITE_LIMIT {
        let count = take_more(site, &mut piece, &mut bytes)?;
        if count == 0 {
            return Ok(bytes);
        }
    }
    Ok(bytes)
}

/// Takes the next bytes of a site file behind the first ones, by way of a piece, and says how many.
fn take_more<S: Source>(
    site: &mut S,
    piece: &mut [u8],
    bytes: &mut Vec<u8>,
) -> Result<usize, SiteFault>
    requires room { 0 < length piece.old }
    ensures takes { Takes (S.left site.old) (S.left site.new) (λ taken. IfOk result (λ count. (bytes.new.items ≡ bytes.old.items ++ taken) × (count ≡ 0 → IsAtEnd (S.left site.new)))) }
    ensures grows { IfOk result (λ count. length bytes.new.items ≡ length bytes.old.items + count) }
    ensures cause { HasCauseIf (is_source_fault result) (S.read_faults site.old) (S.read_faults site.new) }
    ensures fault { IfErr result (λ e. (e ≡ Source) ⊎ (e ≡ Memory)) }
{
    let Ok(count) = site.take(piece) else {
        return Err(SiteFault::Source);
    };
    bytes.extend_from_slice(&piece[..count])?;
    Ok(count)
}

/// The setup that these bytes say.
#[tactic(auto, unfolding(crate::specs::Files::site_of))]
fn setup_in(alloc: Global, bytes: &[u8]) -> Result<Setup, SiteFault>
    ensures { SaysSetup bytes.now result }
{
    if bytes.len() > SITE_LIMIT {
        return Err(SiteFault::Unreadable(1));
    }
    match read_site(alloc, bytes) {
        Ok(setup) => Ok(setup),
        Err(FileFault::Memory) => Err(SiteFault::Memory),
        Err(fault) => Err(SiteFault::Unreadable(number_of(fault))),
    }
}

/// The number of a fault.
fn number_of(fault: FileFault) -> u8
    ensures { result ≡ number_of fault }
{
    match fault {
        FileFault::Unreadable => 1,
        FileFault::NoField(_) => 2,
        FileFault::BadField(_) => 3,
        FileFault::Twice(_) => 4,
        FileFault::TooMany(_) => 5,
        FileFault::Memory => 6,
        FileFault::Row(_, _) => 7,
    }
}

/// How a command ends whose site file gives no setup.
pub(crate) fn ending_of_file(fault: SiteFault) -> Ending
    ensures { result ≡ ending_of_file fault }
{
    match fault {
        SiteFault::Unreadable(kind) => Ending::Unreadable(kind),
        SiteFault::Source => Ending::ReadFault,
        SiteFault::Memory => Ending::NoMemory,
    }
}
