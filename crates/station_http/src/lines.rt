//! Where a request begins, and where its head ends.
ghost use Rattle.std.specs.Prelude.{◌≡◌, ◌≤◌, length};
ghost use Rattle.station_http.specs.Lines.{is_blank as starts_blank, blank as blank_of, empty_line as empty_line_of, end_here as end_at, head_end as head_end_of};

/// Whether the first byte belongs to an empty line.
fn is_blank(bytes: &[u8]) -> bool
    ensures { result ≡ starts_blank bytes.now }
{
    match bytes {
        [b'\n', ..] => true,
        [b'\r', b'\n', ..] => true,
        _ => false,
    }
}

/// How many bytes the empty lines at the front have.
pub fn blank(bytes: &[u8]) -> usize
    ensures blank { result ≡ blank_of bytes.now }
    ensures within { result ≤ length bytes.now }
{
    for at in 0..bytes.len() {
        if !is_blank(&bytes[at..]) {
            return at;
        }
    }
    bytes.len()
}

/// How many bytes the empty line at the front has.
fn empty_line(bytes: &[u8]) -> Option<usize>
    ensures { result ≡ empty_line_of bytes.now }
{
    match bytes {
        [b'\n', ..] => Some(1),
        [b'\r', b'\n', ..] => Some(2),
        _ => None,
    }
}

/// Up to the end of the empty line that follows the first byte, where that byte ends a line.
fn end_here(bytes: &[u8]) -> Option<usize>
    ensures { result ≡ end_at bytes.now }
{
    match bytes {
        [b'\n', rest @ ..] => match empty_line(rest) {
            Some(count) => Some(count + 1),
            None => None,
        },
        _ => None,
    }
}

/// How many bytes a head at the front has.
pub fn head_end(bytes: &[u8]) -> Option<usize>
    ensures { result ≡ head_end_of bytes.now }
{
    for at in 0..bytes.len() {
        if let Some(count) = end_here(&bytes[at..]) {
            return Some(at + count);
        }
    }
    None
}
