//! What holds of the values of contexts by their types, said for the proofs above.

ghost use Rattle.std.specs.Prelude.{ℤ, All, FitsSigned};
ghost use Rattle.std.specs.Int.{w64};
ghost use Rattle.wave_base.specs.declared.shot.Shot.{Shot};
ghost use Rattle.path_text.specs.Found.{HasKeys};
ghost use Rattle.snapshot_text.specs.Shots.{IsValue};

use wave_base::{Path, Shot, Value};

fn pairs_fit(pairs: &[(i64, i64)])
    ensures { All (λ (p : ℤ × ℤ). FitsSigned w64 p.0 × FitsSigned w64 p.1) pairs.now }
{
    for pair in pairs {
        let _key = pair.0;
        let _value = pair.1;
    }
}

fn value_fits(value: &Value)
    ensures { IsValue value.now }
{
    match value {
        Value::Int(n) => {
            let _n = *n;
        }
        Value::Bool(_) => {}
        Value::Str(text) => {
            let _bytes = text.bytes();
        }
        Value::Map(table) => pairs_fit(table.pairs()),
    }
}

fn fields_fit(values: &[Value])
    ensures { All IsValue values.now }
{
    for value in values {
        value_fits(value);
    }
}

fn keys_fit(path: &Path)
    ensures { HasKeys path.now }
{
    for i in 0..path.len() {
        let _key = path.step(i).unwrap().key;
    }
}

/// The values and the keys of contexts fit 64 bits, and texts and maps are as long as they may be, since their types have no others.
pub fn values_fit(shots: &[Shot])
    ensures values { All (λ (s : Shot). All IsValue s.fields) shots.now }
    ensures keys { All (λ (s : Shot). HasKeys s.path) shots.now }
{
    for shot in shots {
        keys_fit(&shot.path);
        fields_fit(shot.fields.as_slice());
    }
}
