//! Laws of what comes of a mesh, by the definitions alone.
ghost use Rattle.std.specs.Prelude.{◌≡◌, Result};
ghost use Rattle.space3.specs.declared.mesh.Mesh.{Mesh};
ghost use Rattle.boundary.specs.declared.refusal.SurfErr.{SurfErr};
ghost use Rattle.boundary.specs.Outcomes.{IsSurfaceOutcome};
ghost use Rattle.boundary.specs.Surface.{SurfaceLists};

/// Law: of each mesh there comes a surface, or a refusal other than want of memory.
pub fn each_mesh_has_a_surface_outcome()
    ensures { (mesh : Mesh) → (outcome : Result SurfaceLists SurfErr) × IsSurfaceOutcome mesh outcome }
{}

/// Law: of a mesh there comes one surface, or one refusal, and not both.
pub fn one_surface_outcome()
    ensures { (mesh : Mesh) (a b : Result SurfaceLists SurfErr) →
        IsSurfaceOutcome mesh a → IsSurfaceOutcome mesh b → a ≡ b }
{}
