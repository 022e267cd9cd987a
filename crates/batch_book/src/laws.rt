//! What is done and taken back leaves the book as it was, its room included; and which declaration counts.
ghost use Rattle.std.specs.Prelude.{◌≡◌, ℕ, ◌<◌, ◌∷◌, ◌++◌, [], false, length, All, List, Some};
ghost use Rattle.std.specs.List.{HoldsAt};
ghost use Rattle.deed_words.specs.declared.words.Phase.TheVariants.{Started, Closed};
ghost use Rattle.batch_book.specs.declared.row.DeclarationRow.{DeclarationRow as TheDeclaration};
ghost use Rattle.batch_book.specs.Batches.{is_called};
ghost use Rattle.batch_book.specs.Said.{declared, declared_last, is_by};

use crate::book::Book;
use deed_words::{BatchId, OrderRow, Phase, StationId};

/// A batch that is added and taken back.
pub fn add_is_taken_back(book: &mut Book, order: OrderRow)
    requires spare { 0 < book.old.batch_spare }
    requires new { All (λ batch. is_called order.batch batch ≡ false) book.old.batches }
    ensures { book.new ≡ book.old }
{
    book.tell_there();
    book.add(order);
    book.remove_last();
}

/// A batch that is brought to another phase, and then to its own again: as after a start, or a close.
pub fn phase_is_taken_back(book: &mut Book, batch: BatchId, phase: Phase)
    requires { batch < length book.old.batches }
    ensures { book.new ≡ book.old }
{
    let was = book.phase(batch);
    book.set_phase(batch, phase);
    book.set_phase(batch, was);
}

/// A batch that is given another quantity, and then its own again.
pub fn amend_is_taken_back(book: &mut Book, batch: BatchId, quantity: u32)
    requires range { batch < length book.old.batches }
    requires open { HoldsAt (λ kept. kept.phase ≡ Closed → ⊥) book.old.batches batch }
    ensures { book.new ≡ book.old }
{
    let was = book.quantity(batch);
    book.amend(batch, quantity);
    book.amend(batch, was);
}

/// A declaration that is kept and taken back.
pub fn declare_is_taken_back(book: &mut Book, batch: BatchId, line: StationId, numbers: [u32; 3])
    requires range { batch < length book.old.batches }
    requires started { HoldsAt (λ kept. kept.phase ≡ Started) book.old.batches batch }
    requires spare { 0 < book.old.declaration_spare }
    ensures { book.new ≡ book.old }
{
    book.declare(batch, line, numbers);
    book.undeclare();
}

/// What a line declared last of a batch counts, and what is said by another line, or of another batch, changes nothing
/// of it: the contract of a function that does nothing.
pub fn last_declaration_counts()
    ensures own { (declarations : List TheDeclaration) (batch line good spoiled returned : ℕ) → declared_last batch line (declarations ++ declared batch line (good ∷ spoiled ∷ returned ∷ []) ∷ []) ≡ Some (good ∷ spoiled ∷ returned ∷ []) }
    ensures other { (declarations : List TheDeclaration) (said : TheDeclaration) (batch line : ℕ) → is_by batch line said ≡ false → declared_last batch line (declarations ++ said ∷ []) ≡ declared_last batch line declarations }
{}
