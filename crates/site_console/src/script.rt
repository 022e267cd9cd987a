//! A run over a script of lines.
ghost use Rattle.std.specs.Prelude.{◌≡◌, ℕ, List};
ghost use Rattle.outside.specs.Causes.{HasCauseIf};
ghost use Rattle.site_console.specs.Lines.{IsHeld, is_read_fault};
ghost use Rattle.site_console.specs.Open.{Stands, point_of, told_of};
ghost use Rattle.site_console.specs.Script.{Ran, Talk};
ghost use Rattle.site_console.specs.Serving.{ServesOrPasses, Serves, is_write_fault};

use crate::answer::{answer_line, print};
use crate::fault::Fault;
use crate::lines::{Line, Lines, Next};
use crate::put::put_all;
use outside::{Clock, Disk, Sink, Source, Words};
use site_store::Store;
use std::alloc::Global;

/// Answers each line of the input, until it ends.
pub fn run<I: Source, O: Sink, D: Disk, C: Clock, W: Words>(
    alloc: Global,
    store: &mut Store<D, C, W>,
    input: &mut I,
    out: &mut O,
) -> Result<(), Fault>
    requires stands { Stands D.Disk C.Clock W.Words store.old }
    ensures ran { (talk : Talk) × Ran store.old.site.setup (point_of D.Disk C.Clock W.Words store.old) (I.left input.old) (I.left input.new)
        (told_of C.Clock W.Words (O.held out.old) store.old.clock store.old.words) (told_of C.Clock W.Words (O.held out.new) store.new.clock store.new.words)
        result (point_of D.Disk C.Clock W.Words store.new) talk }
    ensures read { HasCauseIf (is_read_fault result) (I.read_faults input.old) (I.read_faults input.new) }
    ensures write { HasCauseIf (is_write_fault result) (O.write_faults out.old) (O.write_faults out.new) }
    ensures setup { store.new.site.setup ≡ store.old.site.setup }
    ensures opened { (store.new.opening ≡ store.old.opening) × (store.new.opened ≡ store.old.opened) }
    ensures stands { Stands D.Disk C.Clock W.Words store.new }
{
    let mut lines = Lines::new(alloc)?;
    'lines: loop {
        let Next { line, is_last } = lines.next(input)?;
        serve_line(alloc, store, line, out)?;
        if is_last {
            return Ok(());
        }
    }
}

/// Serves a line, or passes over an empty one.
fn serve_line<O: Sink, D: Disk, C: Clock, W: Words>(
    alloc: Global,
    store: &mut Store<D, C, W>,
    line: Line,
    out: &mut O,
) -> Result<(), Fault>
    requires stands { Stands D.Disk C.Clock W.Words store.old }
    ensures serves { (text : List ℕ) → IsHeld line text → ServesOrPasses store.old.site.setup (point_of D.Disk C.Clock W.Words store.old) text
        (told_of C.Clock W.Words (O.held out.old) store.old.clock store.old.words) (told_of C.Clock W.Words (O.held out.new) store.new.clock store.new.words)
        result (point_of D.Disk C.Clock W.Words store.new) }
    ensures write { HasCauseIf (is_write_fault result) (O.write_faults out.old) (O.write_faults out.new) }
    ensures setup { store.new.site.setup ≡ store.old.site.setup }
    ensures opened { (store.new.opening ≡ store.old.opening) × (store.new.opened ≡ store.old.opened) }
    ensures stands { Stands D.Disk C.Clock W.Words store.new }
{
    if line.is_empty() {
        return Ok(());
    }
    serve_request(alloc, store, &line, out)
}

/// Answers one line and puts the answer, once its whole text is made.
fn serve_request<O: Sink, D: Disk, C: Clock, W: Words>(
    alloc: Global,
    store: &mut Store<D, C, W>,
    line: &Line,
    out: &mut O,
) -> Result<(), Fault>
    requires stands { Stands D.Disk C.Clock W.Words store.old }
    ensures serves { (text : List ℕ) → IsHeld line.now text → Serves store.old.site.setup (point_of D.Disk C.Clock W.Words store.old) text
        (told_of C.Clock W.Words (O.held out.old) store.old.clock store.old.words) (told_of C.Clock W.Words (O.held out.new) store.new.clock store.new.words)
        result (point_of D.Disk C.Clock W.Words store.new) }
    ensures write { HasCauseIf (is_write_fault result) (O.write_faults out.old) (O.write_faults out.new) }
    ensures setup { store.new.site.setup ≡ store.old.site.setup }
    ensures opened { (store.new.opening ≡ store.old.opening) × (store.new.opened ≡ store.old.opened) }
    ensures stands { Stands D.Disk C.Clock W.Words store.new }
{
    let answer = answer_line(alloc, store, line);
    let text = print(alloc, store.site().setup(), &answer)?;
    let Ok(()) = put_all(out, text.as_bytes()) else {
        return Err(Fault::Write);
    };
    Ok(())
}
