//! Paths are written, read and looked up.

ghost use Rattle.wave_base.specs.Shapes.{IsShape};

use crate::same::is_text;
use crate::shapes::hall_shape;
use path_text::{
    ClassNames, PathError, parse_path, put_shot, resolve_steps, write_path, written_steps,
};
use std::alloc::Global;
use std::process::Abort;
use std::test::Fail;
use wave_base::{Class, Path, Seq, Shape, Shot, Step};

// A text is this path, or has this fault.
fn parses(
    rt: &impl Abort,
    alloc: Global,
    shape: &Shape,
    text: &[u8],
    wanted: Result<Path, PathError>,
)
    requires { IsShape shape.now }
{
    assert!(rt; parse_path(alloc, shape, text) == wanted);
}

#[test]
fn reads_what_it_writes(rt: HostRuntime) -> Result<(), Fail> {
    let alloc = rt.alloc();
    let shape = hall_shape(alloc)?;
    let hall = Path::root().child(Step {
        class: Class(1),
        key: -7,
    });
    let text = write_path(alloc, &shape, &hall)?;
    is_text(&rt, text.as_slice(), b"/Hall[-7]");
    parses(&rt, alloc, &shape, b"/Hall[-007]", Ok(hall));
    parses(&rt, alloc, &shape, b"/", Ok(Path::root()));
    parses(&rt, alloc, &shape, b"/Hall[]", Err(PathError::Syntax));
    parses(
        &rt,
        alloc,
        &shape,
        b"/Market[1]",
        Err(PathError::UnknownClass),
    );
    Ok(())
}

#[test]
fn writes_a_context(rt: HostRuntime) -> Result<(), Fail> {
    let alloc = rt.alloc();
    let shape = hall_shape(alloc)?;
    let shot = Shot {
        path: Path::root(),
        fields: Seq::new(alloc),
    };
    let mut out = Vec::new(alloc);
    put_shot(alloc, &mut out, &shape, &shot)?;
    is_text(&rt, out.as_slice(), b"at /");
    Ok(())
}

#[test]
fn finds_classes_by_their_names(rt: HostRuntime) -> Result<(), Fail> {
    let alloc = rt.alloc();
    let shape = hall_shape(alloc)?;
    let names = ClassNames::of(alloc, &shape)?;
    assert_eq!(rt; names.shape().classes.len(), 2);
    let hall = Path::root().child(Step {
        class: Class(1),
        key: 5,
    });
    if let Some(steps) = written_steps(alloc, b"/Hall[5]")? {
        assert!(rt; resolve_steps(&names, steps.as_slice()) == Some(hall));
        assert!(rt; resolve_steps(&shape, steps.as_slice()) == Some(hall));
    }
    if let Some(steps) = written_steps(alloc, b"/Hall[5]/Hall[5]")? {
        assert!(rt; resolve_steps(&names, steps.as_slice()).is_none());
    }
    Ok(())
}
