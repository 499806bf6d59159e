//! The files with which each transcript starts.

/// `t.msh` is a tetrahedron, `f.toml` lets it fall for three frames, and `fall_1` to `fall_3` are those frames. The other
/// files are their parts.
pub const START: &str = r#"
#file head
$MeshFormat
2.2 0 8
$EndMeshFormat
$Nodes
4

#file tail
$EndNodes
$Elements
1
1 4 2 0 1 1 2 3 4
$EndElements

#file t.msh
@head
1 0 0 0
2 100 0 0
3 0 100 0
4 0 0 100
@tail

#file fall_1
@head
1 0 0 -2
2 100 0 -2
3 0 100 -2
4 0 0 98
@tail

#file fall_2
@head
1 0 0 -6
2 100 0 -6
3 0 100 -6
4 0 0 94
@tail

#file fall_3
@head
1 0 0 -12
2 100 0 -12
3 0 100 -12
4 0 0 88
@tail

#file names
mesh = "t.msh"
out = "fall"
digits = 0

#file fall
frames = 3
budget = 10
tol = 0
gravity = [0, 0, -512]
dhat = 2
kappa = 1

#file material
[material]
density = 1
mu = 0
lambda = 0

#file f.toml
@names
@fall
@material
"#;
