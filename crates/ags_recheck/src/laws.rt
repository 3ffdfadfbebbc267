//! What edits leave. Each law is what a function that does nothing ensures, so that it is proved with the crate.

ghost use Rattle.std.specs.Prelude.{◌≡◌, All, List, Result, Err};
ghost use Rattle.ags_domain.specs.Value.{value_meaning};
ghost use Rattle.ags_domain.specs.declared.values.Value.{Value};
ghost use Rattle.ags_image.specs.Image.{IsImage};
ghost use Rattle.ags_ports.specs.Machine.{IsMachine};
ghost use Rattle.ags_verdict.specs.Verdict.{IsVerdict};
ghost use Rattle.ags_verdict.specs.declared.verdicts.Verdict.{Verdict};
ghost use Rattle.ags_certtype.specs.Cert.{certificate_of};
ghost use Rattle.ags_certtype.specs.declared.edit_errors.EditError.{EditError};
ghost use Rattle.ags_check.specs.Judging.{Judging};
ghost use Rattle.ags_edits.specs.Text.{IsLawful};
ghost use Rattle.ags_edits.specs.declared.edits.Edit.{Edit};
ghost use Rattle.ags_recheck.specs.Edited.{IsEdited, AreEdited};
ghost use Rattle.ags_recheck.specs.Told.{AreTold};
ghost use Rattle.ags_recheck.specs.declared.telling.Told.{Told};

/// After any list of edits the machine is the one of the start, and there is one verdict on it of the edited image and certificate: a
/// book that tells a verdict of what stands after the edits tells that of a fresh check. An edit that is refused changes nothing.
pub fn edits_equal_a_fresh_check()
    ensures machine { (start after : Judging) (edits : List Edit) (outcomes : List (Result Unit EditError))
        → AreEdited start edits outcomes after → after.machine ≡ start.machine }
    ensures verdict { (start after : Judging) (edits : List Edit) (outcomes : List (Result Unit EditError)) (told fresh : Verdict Value)
        → IsMachine start.machine → AreEdited start edits outcomes after
        → IsVerdict value_meaning after.machine after.image (certificate_of after.cert) told
        → IsVerdict value_meaning start.machine after.image (certificate_of after.cert) fresh → told ≡ fresh }
    ensures refused { (old new : Judging) (edit : Edit) (error : EditError) → IsEdited old edit (Err error) new → new ≡ old }
{}

/// Of each list of edits of the memory something is told, and one thing alone, which leaves one program and certificate.
pub fn edits_are_told_one_thing()
    ensures some { (start : Judging) (edits : List Edit) → IsMachine start.machine → IsImage start.image → All IsLawful edits
        → (told : List Told) × (after : Judging) × AreTold start edits told after }
    ensures one { (start : Judging) (edits : List Edit) (told other : List Told) (after further : Judging) → IsMachine start.machine
        → AreTold start edits told after → AreTold start edits other further → (told ≡ other) × (after ≡ further) }
{}
