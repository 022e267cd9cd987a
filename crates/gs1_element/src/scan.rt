//! Scans to codes.
ghost use Rattle.std.specs.Prelude.{◌≡◌, ◌≤◌, length, IfOk};
ghost use Rattle.gs1_element.specs.declared.code.Code.{Code};
ghost use Rattle.gs1_element.specs.Scans.{IsScan};
ghost use Rattle.gs1_element.specs.Codes.{prefix_length, code_of};
ghost use Rattle.gs1_element.specs.Faults.{fault_of, scan_fault};

use crate::code::Code;
use crate::fault::ElementFault;
use crate::found::code_from;

/// How many bytes the scanner prefix has: 3 of `]d2` (GS1 DataMatrix) and `]C1` (GS1-128), else 0.
#[tactic(auto, unfolding(crate::specs::Codes::prefix_length))]
pub(crate) fn length_of_prefix(scan: &[u8]) -> usize
    ensures is { result ≡ prefix_length scan.now }
    ensures few { result ≤ length scan.now }
{
    if scan.starts_with(b"]d2".as_slice()) || scan.starts_with(b"]C1".as_slice()) {
        3
    } else {
        0
    }
}

/// The code of a scan, or its first fault.
#[tactic(auto, unfolding(crate::specs::Codes::code_of))]
fn code_or_fault(scan: &[u8]) -> Result<Code, ElementFault>
    ensures { result ≡ code_of scan.now }
{
    let start = length_of_prefix(scan);
    if scan.len() == start {
        return Err(ElementFault::Empty);
    }
    code_from(start, &scan[start..])
}

/// Reads the code of a scan (GS1 General Specifications, element strings): an optional scanner prefix
/// `]d2` or `]C1`, and then units, among them 01, 10, 17 and 21 once each, in any order.
///
/// Else it answers the first fault over the units from the left; of one unit the first in this
/// order: `ShortElement`, `BadIdentifier`, `Twice`, `BadValue`, `BadMonthOrDay`. `Empty` stands
/// before all units, and `Missing` comes after them.
pub fn read_code(scan: &[u8]) -> Result<Code, ElementFault>
    // What is read is a scan of the code, and a scan of a code is read as this code.
    ensures found { IfOk result (λ c. IsScan scan.now c) }
    ensures only { (c : Code) → IsScan scan.now c → result ≡ Ok c }
    // A scan has one code.
    ensures one { (c d : Code) → IsScan scan.now c → IsScan scan.now d → c ≡ d }
    // Else the first fault is answered.
    ensures fault { fault_of result ≡ scan_fault scan.now }
    ensures exact { result ≡ code_of scan.now }
{
    code_or_fault(scan)
}
