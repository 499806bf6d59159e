//! A law is a function that does nothing, whose contract is the law.
ghost use Rattle.std.specs.Prelude.{◌≡◌, Option};
ghost use Rattle.surface_mesh.specs.declared.setup.Setup.{Setup};
ghost use Rattle.mesh_check.specs.declared.defects.Defect.{Defect};
ghost use Rattle.mesh_check.specs.Defects.{IsFirstDefect};

/// Law: a setup has one first defect, or none.
pub fn one_first_defect()
    ensures { (setup : Setup) (a b : Option Defect) →
        IsFirstDefect setup a → IsFirstDefect setup b → a ≡ b }
{}
