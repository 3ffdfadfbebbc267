//! What the definitions mean. Each law is what a function that does nothing ensures, so that it is proved with the crate. After
//! each clause is a lemma of `proofs/PlanLemmas` or `proofs/ListLemmas`, which the crates above cite.

ghost use Rattle.std.specs.Prelude.{◌≡◌, ℕ, ◌<◌, ◌^◌, List, [], ◌∷◌, ◌++◌, pos, ◌+ℤ◌, ◌*ℤ◌, Some, length, slice_get};
ghost use Rattle.std.specs.List.{All};
ghost use Rattle.ags_word.specs.Word.{val, wrap};
ghost use Rattle.ags_device.specs.Record.{DeviceRecord, given, having_heard};
ghost use Rattle.ags_device.specs.Plan.{readings};
ghost use Rattle.ags_device.specs.Devices.{all_heard, heard_below};

/// To give a word leaves both addresses and what was kept, and to hear one leaves both addresses and the plan.
pub fn addresses_never_change()
    ensures next_feeds { (d : DeviceRecord) → (given d).feeds ≡ d.feeds }
    ensures next_hears { (d : DeviceRecord) → (given d).hears ≡ d.hears }
    ensures next_kept { (d : DeviceRecord) → (given d).kept ≡ d.kept }
    ensures hear_feeds { (d : DeviceRecord) (word : ℕ) → (having_heard d word).feeds ≡ d.feeds }
    ensures hear_hears { (d : DeviceRecord) (word : ℕ) → (having_heard d word).hears ≡ d.hears }
    ensures hear_plan { (d : DeviceRecord) (word : ℕ) → (having_heard d word).plan ≡ d.plan }
{}

/// The plan of a new sensor has as many words as its count says; the one at a position, counted from 0, is what is left of the first
/// value and so many times the value by which it goes on; and each is a word.
pub fn sensor_ramps()
    ensures count { (first by count : ℕ) → length (readings first by 0 count) ≡ count }
    ensures word { (first by count position : ℕ) → position < count
        → slice_get (readings first by 0 count) position ≡ Some (wrap (val first +ℤ pos position *ℤ val by)) }
    ensures below { (first by count : ℕ) → All (λ word. word < 2 ^ 18) (readings first by 0 count) }
{}

/// A word that is given to as many devices as there are is given to all.
pub fn all_hear_in_order()
    ensures { (address word : ℕ) (devices : List DeviceRecord)
        → heard_below address word (length devices) devices ≡ all_heard address word devices }
{}
