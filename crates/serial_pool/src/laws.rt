//! Laws of the definitions that the contracts cite.
ghost use Rattle.std.specs.Prelude.{◌≡◌, ◌++◌, ℕ, List, Option, Result, true, length as count_of};
ghost use Rattle.gs1_keys.specs.Keys.{IsText};
ghost use Rattle.gs1_keys.specs.Forms.{AreDistinct, AreNew, is_form, is_in_form};
ghost use Rattle.gs1_keys.specs.declared.form.SerialForm.{SerialForm};
ghost use Rattle.outside.specs.Devices.{Takes};
ghost use Rattle.serial_pool.specs.declared.fault.DrawFault.{DrawFault};
ghost use Rattle.serial_pool.specs.declared.drawn.DrawnSerial.{DrawnSerial};
ghost use Rattle.serial_pool.specs.Drawing.{drawn, found, used, word_limit, IsDraw, IsSpent};
ghost use Rattle.serial_pool.specs.Ends.{DrawEnds, DrawsFrom, IsFirstNotNew};
ghost use Rattle.serial_pool.specs.Held.{PlanView, DrawnOnce, IsPlanFor, drawn_for};

/// What a draw holds and takes is what is drawn from its words, whatever words follow them.
pub fn takes_the_first()
    ensures told { (had : List (List ℕ)) (form : SerialForm) (count : ℕ) (left : List ℕ) (new : Option (List ℕ)) (result : Result PlanView DrawFault) → Takes (Some left) new (λ taken. DrawEnds had form count taken result) → DrawsFrom had form count left new result }
    ensures drawn { (had : List (List ℕ)) (form : SerialForm) (count : ℕ) (taken more : List ℕ) (serials : List (List ℕ)) → IsDraw had form count taken serials → drawn (taken ++ more) had form count ≡ serials }
    ensures used { (had : List (List ℕ)) (form : SerialForm) (count : ℕ) (taken more : List ℕ) (serials : List (List ℕ)) → IsDraw had form count taken serials → used (taken ++ more) had form count ≡ count_of taken }
    ensures found { (had : List (List ℕ)) (form : SerialForm) (count : ℕ) (taken more : List ℕ) (few : ℕ) → IsSpent had form count taken few → found (taken ++ more) had form count ≡ few }
    ensures spent { (had : List (List ℕ)) (form : SerialForm) (count : ℕ) (taken more : List ℕ) (few : ℕ) → IsSpent had form count taken few → used (taken ++ more) had form count ≡ word_limit count }
{}

/// A draw holds new serials of the form, and none stands twice beside those that were drawn. Where one of a list
/// isn't new, they aren't.
pub fn draws_new()
    ensures new { (had : List (List ℕ)) (form : SerialForm) (count : ℕ) (taken : List ℕ) (serials : List (List ℕ)) → AreDistinct had → IsDraw had form count taken serials → AreNew had form serials }
    ensures once { (had : List (List ℕ)) (form : SerialForm) (serials : List (List ℕ)) → AreDistinct had → AreNew had form serials → AreDistinct (had ++ serials) }
    ensures refused { (had : List (List ℕ)) (form : SerialForm) (serials : List (List ℕ)) (index : ℕ) → IsFirstNotNew had form serials index → AreNew had form serials → ⊥ }
    ensures text { (form : SerialForm) (serial : List ℕ) → is_form form ≡ true → is_in_form form serial ≡ true → IsText serial }
{}

/// Where no serial of any GTIN was drawn twice, it stays so after a commit.
pub fn commits_once()
    ensures { (pairs : List DrawnSerial) (plan : PlanView) → DrawnOnce pairs → IsPlanFor pairs plan → DrawnOnce (pairs ++ drawn_for plan.gtin plan.serials) }
{}
