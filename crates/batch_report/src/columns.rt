//! Texts in columns.
ghost use Rattle.std.specs.Prelude.{◌≡◌, ◌≤◌, ◌++◌, OnOk, decimal, replicate};
ghost use Rattle.std.specs.List.{flat_map};
ghost use Rattle.batch_report.specs.Texts.{left, right, number_cell, text_line, number_line};

use gs1_keys::Memory;
use itoa::Buffer;

/// As many spaces as the widest column has places.
const SPACES: [u8; 20] = [b' '; 20];

/// Puts spaces.
fn push_spaces(out: &mut Vec<u8>, count: usize) -> Result<(), Memory>
    requires { count ≤ 20 }
    ensures { OnOk result (out.new.items ≡ out.old.items ++ replicate count 32) }
{
    out.extend_from_slice(&SPACES[..count])?;
    Ok(())
}

/// Puts a text on the left of a column.
pub(crate) fn push_left(out: &mut Vec<u8>, text: &[u8], width: usize) -> Result<(), Memory>
    requires { width ≤ 20 }
    ensures { OnOk result (out.new.items ≡ out.old.items ++ left width text.now) }
{
    out.extend_from_slice(text)?;
    push_spaces(out, width.saturating_sub(text.len()))?;
    Ok(())
}

/// Puts a number on the right of a column of nine places.
fn push_right(out: &mut Vec<u8>, number: u32) -> Result<(), Memory>
    ensures { OnOk result (out.new.items ≡ out.old.items ++ number_cell number) }
{
    let mut digits = Buffer::new();
    let text = digits.format(number).as_bytes();
    push_spaces(out, 9usize.saturating_sub(text.len()))?;
    out.extend_from_slice(text)?;
    Ok(())
}

/// Puts numbers in columns.
pub(crate) fn push_numbers(out: &mut Vec<u8>, numbers: &[u32]) -> Result<(), Memory>
    ensures { OnOk result (out.new.items ≡ out.old.items ++ flat_map number_cell numbers.now) }
{
    for number in numbers {
        push_right(out, *number)?;
    }
    Ok(())
}

/// Puts a line of a label and a text.
pub(crate) fn push_text(out: &mut Vec<u8>, label: &[u8], value: &[u8]) -> Result<(), Memory>
    ensures { OnOk result (out.new.items ≡ out.old.items ++ text_line label.now value.now) }
{
    push_left(out, label, 14)?;
    out.extend_from_slice(value)?;
    out.push(b'\n')?;
    Ok(())
}

/// Puts a line of a label and a number.
pub(crate) fn push_number(out: &mut Vec<u8>, label: &[u8], number: u32) -> Result<(), Memory>
    ensures { OnOk result (out.new.items ≡ out.old.items ++ number_line label.now number) }
{
    push_left(out, label, 14)?;
    push_right(out, number)?;
    out.push(b'\n')?;
    Ok(())
}
