//! Declarations by their names.

ghost use Rattle.wave_base.specs.Text.{IsText};

use mace_ast::{BinaryOp, Name, Param, UnaryOp};
use name_table::Names;
use service_reader::parse_text;
use std::alloc::Global;
use std::test::Fail;
use type_tables::{
    Operators, Tables, kinds_of, rows_before, rows_of_index, rows_of_sign, same_kind,
};
use wave_base::{Kind, OutOfMemory, Seq, Span, Txt};

fn at(col: u32) -> Span {
    Span { line: 1, col }
}

fn name(alloc: Global, col: u32, text: &[u8]) -> Result<Name, OutOfMemory>
    requires { IsText text.now }
{
    Ok(Name {
        at: at(col),
        text: Txt::from_bytes(alloc, text)?,
    })
}

fn one<T>(alloc: Global, item: T) -> Result<Vec<T>, OutOfMemory>
where
    T: Drop,
{
    let mut items = Vec::new(alloc);
    items.push(item)?;
    Ok(items)
}

fn param(alloc: Global, text: &[u8], kind: Kind) -> Result<Seq<Param>, OutOfMemory>
    requires { IsText text.now }
{
    let param = Param {
        name: name(alloc, 1, text)?,
        kind,
    };
    Ok(Seq::from_vec(one(alloc, param)?))
}

// A field, a context in a context with a method of its own, a method and an event.
const SERVICE: &[u8] =
    b"service S { var r: int = -7; context A[int] { context B[int] { method m(x: text): int { return 0; } } } method u() { } event e(p: bool) { } }";

fn tables(alloc: Global) -> Result<Tables, Fail> {
    let service = parse_text(alloc, SERVICE)?;
    Ok(Tables::of(alloc, &service)?)
}

#[test]
fn classes_and_events_have_the_numbers_of_their_places(rt: HostRuntime) -> Result<(), Fail> {
    let alloc = rt.alloc();
    let b = Txt::from_bytes(alloc, b"B")?;
    let e = Txt::from_bytes(alloc, b"e")?;
    let tables = tables(alloc)?;
    assert_eq!(rt; tables.class(&b), Some(2));
    assert_eq!(rt; tables.class(&e), None);
    assert_eq!(rt; tables.event(&e), Some(0));
    Ok(())
}

#[test]
fn methods_and_fields_belong_to_their_classes(rt: HostRuntime) -> Result<(), Fail> {
    let alloc = rt.alloc();
    let m = Txt::from_bytes(alloc, b"m")?;
    let r = Txt::from_bytes(alloc, b"r")?;
    let tables = tables(alloc)?;
    assert_eq!(rt; tables.method(2, &m), Some(0));
    assert_eq!(rt; tables.method(0, &m), None);
    assert!(rt; matches!(tables.field(0, &r), Some((0, Kind::Int))));
    assert_eq!(rt; tables.method_count(), 2);
    Ok(())
}

#[test]
fn classes_know_those_above_them(rt: HostRuntime) -> Result<(), Fail> {
    let num = Txt::from_bytes(rt.alloc(), b"num")?;
    let tables = tables(rt.alloc())?;
    assert_eq!(rt; tables.level(2, 1), Some(1));
    assert_eq!(rt; tables.level(2, 2), None);
    assert!(rt; tables.is_child(1, 2) && !tables.is_child(0, 2) && !tables.is_child(0, 0));
    assert_eq!(rt; tables.above(2).len(), 2);
    assert_eq!(rt; tables.event_params(0).len(), 1);
    if tables.method_count() > 0 {
        assert_eq!(rt; tables.signature(0).class, 2);
    }
    assert_eq!(rt; tables.builtin(&num), None);
    assert_eq!(rt; tables.operators().builtin_2(b"num"), Some(33));
    assert_eq!(rt; tables.into_shape().classes.as_slice().len(), 3);
    Ok(())
}

#[test]
fn rows_take_kinds(rt: HostRuntime) -> Result<(), Fail> {
    let operators = Operators::new();
    // texts and ints are put in order by two rows
    assert_eq!(rt;
        operators.first(rows_of_sign(BinaryOp::Lt), Kind::Text, Some(Kind::Text)),
        Some(17)
    );
    assert_eq!(rt;
        operators.first(rows_of_sign(BinaryOp::Le), Kind::Text, Some(Kind::Text)),
        None
    );
    assert_eq!(rt;
        operators.first(rows_before(UnaryOp::Not), Kind::Bool, None),
        Some(6)
    );
    assert_eq!(rt;
        operators.first(rows_of_index(), Kind::Map, Some(Kind::Int)),
        Some(19)
    );
    assert!(rt; same_kind(operators.gives(17), Kind::Bool));
    let (kinds, len) = operators.takes(23);
    assert!(rt; len == 1 && same_kind(kinds[0], Kind::Map));
    let params = param(rt.alloc(), b"x", Kind::Map)?;
    assert_eq!(rt; kinds_of(rt.alloc(), &params)?.as_slice().len(), 1);
    Ok(())
}

// Names with these numbers, each noted behind the one before it.
fn noted_names(alloc: Global, rows: &[(&[u8], u16)]) -> Result<Names, OutOfMemory> {
    let mut names = Names::new(alloc);
    for (name, number) in rows {
        names.note(alloc, name, *number)?;
    }
    Ok(names)
}

#[test]
fn the_first_number_of_a_name_counts(rt: HostRuntime) -> Result<(), Fail> {
    let none = noted_names(rt.alloc(), &[])?;
    assert_eq!(rt; none.first(b"a"), None);
    let names = noted_names(rt.alloc(), &[(b"a", 7), (b"b", 8), (b"a", 9)])?;
    assert_eq!(rt; names.first(b"a"), Some(7));
    assert_eq!(rt; names.first(b"b"), Some(8));
    assert_eq!(rt; names.first(b"ab"), None);
    Ok(())
}
