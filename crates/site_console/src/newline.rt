// The first newline.
ghost use Rattle.std.specs.Prelude.{MatchOption};
ghost use Rattle.site_console.specs.Newline.{HasNoNewline, FoundNewline};

pub fn newline_in(bytes: &[u8]) -> Option<usize>
    ensures { MatchOption result (HasNoNewline bytes.now) (FoundNewline bytes.now) }
{
    bytes.iter().position(|byte| *byte == b'\n')
}
