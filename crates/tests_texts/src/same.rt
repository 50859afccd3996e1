//! What was told or written is what has to be. Faults and texts are compared here alone, not in each test.

use checkpoint_store::CheckError;
use mace_lexer::LexError;
use script_reader::ScriptError;
use snapshot_text::ShotError;
use std::process::Abort;

pub(crate) fn is_text(rt: &impl Abort, written: &[u8], wanted: &[u8]) {
    assert!(rt; written == wanted);
}

pub(crate) fn is_lex_fault(rt: &impl Abort, told: Option<LexError>, wanted: Option<LexError>) {
    assert_eq!(rt; told, wanted);
}

pub(crate) fn is_script_fault(
    rt: &impl Abort,
    told: Option<ScriptError>,
    wanted: Option<ScriptError>,
) {
    assert_eq!(rt; told, wanted);
}

pub(crate) fn is_shot_fault(rt: &impl Abort, told: Option<ShotError>, wanted: Option<ShotError>) {
    assert_eq!(rt; told, wanted);
}

pub(crate) fn is_point_fault(
    rt: &impl Abort,
    told: Option<CheckError>,
    wanted: Option<CheckError>,
) {
    assert_eq!(rt; told, wanted);
}
