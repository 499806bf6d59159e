//! Scenes as texts, and what is said of those that are refused.
use dec_text::Snap;
use scene_toml::{ReadSceneErr, SceneErr, read_scene};
use std::alloc::Global;
use std::test::Fail;

const FALL: &str = "mesh = \"t.msh\"
out = \"fall\"
digits = 0
frames = 3
budget = 10
tol = 0
gravity = [0, 0, -512]
dhat = 2
kappa = 1
[material]
density = 1
mu = 0
lambda = 0
";

fn snap_word(snap: Snap) -> &'static str {
    match snap {
        Snap::Nearest => "nearest",
        Snap::Exact => "exact",
    }
}

/// What is said of a text: the names and a few numbers of its scene, or its fault.
fn said(alloc: Global, text: &[u8]) -> Result<String, Fail> {
    Ok(match read_scene(alloc, text) {
        Ok(scene) => {
            let (mesh, out) = (scene.mesh.text(), scene.out.text());
            let (digits, snap) = (scene.digits, snap_word(scene.snap));
            let (frames, gravity) = (scene.frames, scene.numbers.gravity.z);
            format!(in alloc; "{mesh} {out} {digits} {snap} {frames} {gravity}")?
        }
        Err(ReadSceneErr::Memory) => format!(in alloc; "memory")?,
        Err(ReadSceneErr::Scene(fault)) => match fault {
            SceneErr::NotToml => format!(in alloc; "not toml")?,
            SceneErr::UnknownKey { key } => format!(in alloc; "unknown key {}", key.text())?,
            SceneErr::Missing { key } => format!(in alloc; "missing key {}", key.text())?,
            SceneErr::WrongType { key } => format!(in alloc; "wrong type {}", key.text())?,
            SceneErr::OutOfRange { key, value } => {
                format!(in alloc; "out of range {} {value}", key.text())?
            }
        },
    })
}

/// What is said of the scene with another text in place of a part of it.
fn said_with(alloc: Global, part: &str, other: &str) -> Result<String, Fail> {
    said(alloc, FALL.replace(alloc, part, other)?.as_bytes())
}

#[test]
fn a_scene_is_read(rt: HostRuntime) -> Result<(), Fail> {
    let alloc = rt.alloc();
    assert_eq!(rt;
        said(alloc, FALL.as_bytes())?.as_str(),
        "t.msh fall 0 nearest 3 -512"
    );
    assert_eq!(rt;
        said_with(alloc, "gravity = [0, 0, -512]\n", "")?.as_str(),
        "t.msh fall 0 nearest 3 0"
    );
    for (snap, read) in [
        ("snap = \"exact\"", "t.msh fall 7 exact 3 -512"),
        ("snap = 'nearest'", "t.msh fall 7 nearest 3 -512"),
    ] {
        let keys = format!(in alloc; "digits = 7\n{snap}")?;
        assert_eq!(rt; said_with(alloc, "digits = 0", &keys)?.as_str(), read);
    }
    assert_eq!(rt;
        said_with(
            alloc,
            "lambda = 0",
            "lambda = 0\nfixed = true\nvelocity = [-65536, 65536, 0]"
        )?
        .as_str(),
        "t.msh fall 0 nearest 3 -512"
    );
    Ok(())
}

#[test]
fn the_first_fault_is_named(rt: HostRuntime) -> Result<(), Fail> {
    let alloc = rt.alloc();
    assert_eq!(rt; said(alloc, b"mesh = '\xff'")?.as_str(), "not toml");
    for (part, other, fault) in [
        (
            "tol = 0\ngravity = [0, 0, -512]\ndhat = 2\nkappa = 1",
            "dhat = 2\nkappa = 0",
            "missing key tol",
        ),
        ("kappa = 1", "kappa = 0", "out of range kappa 0"),
        ("kappa = 1", "kappa = 0\nkapa = 1", "unknown key kapa"),
        (
            "kappa = 1\n[material]",
            "[material]\nfoo = 1",
            "unknown key material.foo",
        ),
        (
            "kappa = 1\n[material]",
            "slip = 0\nkappa = 1\nfriction = 2000\n[material]",
            "out of range friction 2000",
        ),
        (
            "kappa = 1\n[material]\ndensity = 1",
            "slip = [1]\nkappa = 1\n[material]\ndensity = 0",
            "wrong type slip",
        ),
        (
            "kappa = 1",
            "kappa = 1\ntrace = \"\"",
            "out of range trace 0",
        ),
        (
            "kappa = 1\n[material]\ndensity = 1",
            "kappa = 1\ntrace = 1\n[material]\ndensity = 0",
            "wrong type trace",
        ),
        ("mu = 0\nlambda = 0", "", "missing key material.mu"),
        ("lambda = 0", "lambda = 0.0", "wrong type material.lambda"),
        (
            "lambda = 0",
            "lambda = 0\nfixed = 1",
            "wrong type material.fixed",
        ),
        (
            "lambda = 0",
            "lambda = 0\nvelocity = [0, 65537, 0]",
            "out of range material.velocity 65537",
        ),
        (
            "lambda = 0",
            "lambda = 0\nvelocity = 1\nfixed = 1",
            "wrong type material.fixed",
        ),
        ("frames = 3", "frames = true", "wrong type frames"),
        ("digits = 0", "digits = true", "wrong type digits"),
        ("frames = 3", "snap = 1\nframes = -1", "wrong type snap"),
        (
            "digits = 0",
            "digits = 10\nsnap = \"near\"",
            "out of range digits 10",
        ),
        ("frames = 3", "snap = \"nearer\"", "out of range snap 6"),
        ("\"fall\"", "\"\"", "out of range out 0"),
        ("-512]", "-512, 0]", "wrong type gravity"),
        ("[0, 0, -512]", "[2000000, 0]", "wrong type gravity"),
        (
            "[0, 0, -512]",
            "[0, 2000000, 3000000]",
            "out of range gravity 2000000",
        ),
        // parts, which are also looked at where the array isn't one of tables
        (
            "lambda = 0",
            "lambda = 0\n[[part]]\nmu = -1",
            "missing key part.0.tag",
        ),
        (
            "lambda = 0",
            "lambda = 0\n[[part]]\ntag = 1\n[[part]]\ntag = 1\nmu = -1",
            "out of range part.1.tag 1",
        ),
        (
            "lambda = 0",
            "lambda = 0\n[[part]]\ntag = 1\n[[part]]\ntag = 2\nmu = -1",
            "out of range part.1.mu -1",
        ),
        (
            "lambda = 0",
            "lambda = 0\n[[part]]\ntag = 2147483648",
            "out of range part.0.tag 2147483648",
        ),
        (
            "lambda = 0",
            "lambda = 0\n[part]\ntag = 1\nfoo = 2",
            "wrong type part",
        ),
        (
            "kappa = 1",
            "kappa = 1\npart = [{tag = 1}, 2]",
            "wrong type part",
        ),
        (
            "kappa = 1",
            "kappa = 1\npart = [{tag = 1}, {foo = 2}, 3]",
            "unknown key part.1.foo",
        ),
    ] {
        assert_eq!(rt; said_with(alloc, part, other)?.as_str(), fault);
    }
    Ok(())
}

#[test]
fn a_part_has_what_it_leaves_out_from_the_base_material(rt: HostRuntime) -> Result<(), Fail> {
    let alloc = rt.alloc();
    let parts =
        "lambda = 7\nvelocity = [1, 2, 3]\n[[part]]\ntag = -5\nmu = 9\n[[part]]\ntag = 2\nfixed = true\nvelocity = [0, 0, 0]";
    let text = FALL.replace(alloc, "lambda = 0", parts)?;
    let mut found = String::new(alloc);
    if let Ok(scene) = read_scene(alloc, text.as_bytes()) {
        for (tag, material) in scene.numbers.parts.items() {
            let (density, mu, lambda) = (material.density, material.mu, material.lambda);
            let (fixed, x) = (material.fixed, material.velocity.x);
            let line = format!(in alloc; "{tag}: {density} {mu} {lambda} {fixed} {x}\n")?;
            found.push_str(line.as_str())?;
        }
    }
    assert_eq!(rt; found.as_str(), "-5: 1 9 7 false 1\n2: 1 0 7 true 0\n");
    Ok(())
}

/// What is said of the scene with this value at an integer key.
fn said_at(alloc: Global, key: &str, line: &str, value: i64) -> Result<String, Fail> {
    said_with(alloc, line, &format!(in alloc; "{key} = {value}\n")?)
}

#[test]
fn each_integer_has_its_range(rt: HostRuntime) -> Result<(), Fail> {
    let alloc = rt.alloc();
    for (key, line, [below, least, most, above]) in [
        ("digits", "digits = 0\n", [-1, 0, 9, 10]),
        ("frames", "frames = 3\n", [-1, 0, 9999, 10000]),
        ("budget", "budget = 10\n", [0, 1, 1000, 1001]),
        ("tol", "tol = 0\n", [-1, 0, 1 << 62, (1 << 62) + 1]),
        ("dhat", "dhat = 2\n", [1, 2, 1024, 1025]),
        ("kappa", "kappa = 1\n", [0, 1, 1 << 40, (1 << 40) + 1]),
        ("kappa = 1\nfriction", "kappa = 1\n", [-1, 0, 1024, 1025]),
        ("kappa = 1\nslip", "kappa = 1\n", [0, 1, 1024, 1025]),
        ("density", "density = 1\n", [0, 1, 1024, 1025]),
        ("mu", "mu = 0\n", [-1, 0, 1 << 30, (1 << 30) + 1]),
        ("lambda", "lambda = 0\n", [-1, 0, 1 << 30, (1 << 30) + 1]),
    ] {
        for value in [below, above] {
            let said = said_at(alloc, key, line, value)?;
            assert!(rt; said.starts_with("out of range"), "{value} at {key}");
        }
        for value in [least, most] {
            let said = said_at(alloc, key, line, value)?;
            assert!(rt; said.starts_with("t.msh fall"), "{value} at {key}");
        }
    }
    Ok(())
}
