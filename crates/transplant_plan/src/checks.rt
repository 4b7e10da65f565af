ghost use Rattle.std.specs.Prelude.{◌≡◌, ◌≢◌, None, Some, IfErr, OnOk, MatchOption, true, false, pos};
ghost use Rattle.toml.specs.View.{view, table_view};
ghost use Rattle.transplant_plan.specs.PlanFile.{first_fault, top_fault, engine_fault, engines_fault, class_fault, count_fault};
ghost use Rattle.transplant_plan.specs.Assignment.{is_allowed};

use crate::fault::PlanFault;
use crate::names::{class_named, engine_named};
use crate::plan::{BANK_COUNTS, KERNEL_COUNTS, PIPE_COUNTS};
use flex_base::{Class, Text, capable};
use std::alloc::Global;
use toml::{Table, Value};

/// The only version.
const VERSIONS: [u8; 1] = [1];

// Looks for the first fault of the document.
pub(crate) fn check_document(alloc: Global, document: &Table) -> Result<(), PlanFault>
    ensures ok { OnOk result (first_fault top_fault (table_view document.now) ≡ None) }
    ensures fault { IfErr result (λ f. f ≢ PlanFault.OutOfMemory
        → first_fault top_fault (table_view document.now) ≡ Some f) }
{
    for (key, value) in document {
        match check_top(alloc, key.as_str(), value) {
            Ok(()) => {}
            Err(fault) => return Err(fault),
        }
    }
    Ok(())
}

#[tactic(auto, unfolding(crate::specs::PlanFile::top_fault))]
fn check_top(alloc: Global, key: &str, value: &Value) -> Result<(), PlanFault>
    ensures ok { OnOk result (top_fault key.now (view value.now) ≡ None) }
    ensures fault { IfErr result (λ f. f ≢ PlanFault.OutOfMemory → top_fault key.now (view value.now) ≡ Some f) }
{
    if key == "banks" {
        check_count(alloc, &BANK_COUNTS, key, value)
    } else if key == "engine" {
        check_engines(alloc, value)
    } else if key == "kernels" {
        check_count(alloc, &KERNEL_COUNTS, key, value)
    } else if key == "pipes" {
        check_count(alloc, &PIPE_COUNTS, key, value)
    } else if key == "version" {
        check_count(alloc, &VERSIONS, key, value)
    } else {
        Err(unknown_key(alloc, key))
    }
}

// The fault of a key that isn't known, or want of memory.
fn unknown_key(alloc: Global, key: &str) -> PlanFault
    ensures { result ≢ PlanFault.OutOfMemory → result ≡ PlanFault.UnknownKey key.now }
{
    match Text::of(alloc, key.as_bytes()) {
        Ok(key) => PlanFault::UnknownKey(key),
        Err(_) => PlanFault::OutOfMemory,
    }
}

fn check_count(alloc: Global, counts: &[u8], key: &str, value: &Value) -> Result<(), PlanFault>
    ensures ok { OnOk result (count_fault counts.now key.now (view value.now) ≡ None) }
    ensures fault { IfErr result (λ f. f ≢ PlanFault.OutOfMemory
        → count_fault counts.now key.now (view value.now) ≡ Some f) }
{
    let number = value.as_integer();
    if let Some(number) = number {
        if count_among(counts, number).is_some() {
            return Ok(());
        }
    }
    Err(bad_count(alloc, key, number))
}

// The fault of a count that isn't allowed, or want of memory.
fn bad_count(alloc: Global, key: &str, number: Option<i64>) -> PlanFault
    ensures { result ≢ PlanFault.OutOfMemory → result ≡ PlanFault.BadCount key.now number }
{
    match Text::of(alloc, key.as_bytes()) {
        Ok(key) => PlanFault::BadCount(key, number),
        Err(_) => PlanFault::OutOfMemory,
    }
}

// The count that is this number, where it is among the allowed ones.
pub(crate) fn count_among(counts: &[u8], number: i64) -> Option<u8>
    ensures { MatchOption result (is_allowed counts.now number ≡ false)
        (λ n. (number ≡ pos n) × (is_allowed counts.now (pos n) ≡ true)) }
{
    for count in counts {
        if i64::from(*count) == number {
            return Some(*count);
        }
    }
    None
}

fn check_engines(alloc: Global, value: &Value) -> Result<(), PlanFault>
    ensures ok { OnOk result (engines_fault (view value.now) ≡ None) }
    ensures fault { IfErr result (λ f. f ≢ PlanFault.OutOfMemory → engines_fault (view value.now) ≡ Some f) }
{
    match value.as_table() {
        Some(engines) => check_classes(alloc, engines),
        None => Err(unknown_key(alloc, "engine")),
    }
}

fn check_classes(alloc: Global, engines: &Table) -> Result<(), PlanFault>
    ensures ok { OnOk result (first_fault engine_fault (table_view engines.now) ≡ None) }
    ensures fault { IfErr result (λ f. f ≢ PlanFault.OutOfMemory
        → first_fault engine_fault (table_view engines.now) ≡ Some f) }
{
    for (key, value) in engines {
        match check_class(alloc, key.as_str(), value) {
            Ok(()) => {}
            Err(fault) => return Err(fault),
        }
    }
    Ok(())
}

#[tactic(auto, unfolding(crate::specs::PlanFile::engine_fault))]
fn check_class(alloc: Global, key: &str, value: &Value) -> Result<(), PlanFault>
    ensures ok { OnOk result (engine_fault key.now (view value.now) ≡ None) }
    ensures fault { IfErr result (λ f. f ≢ PlanFault.OutOfMemory
        → engine_fault key.now (view value.now) ≡ Some f) }
{
    match class_named(key) {
        Some(class) => check_engine(alloc, class, value),
        None => {
            let mut name = String::from_str(alloc, "engine.")?;
            name.push_str(key)?;
            Err(unknown_key(alloc, name.as_str()))
        }
    }
}

fn check_engine(alloc: Global, class: Class, value: &Value) -> Result<(), PlanFault>
    ensures ok { OnOk result (class_fault class (view value.now) ≡ None) }
    ensures fault { IfErr result (λ f. f ≢ PlanFault.OutOfMemory
        → class_fault class (view value.now) ≡ Some f) }
{
    match value.as_str() {
        Some(name) => match engine_named(name) {
            Some(engine) if capable(class, engine) => Ok(()),
            Some(engine) => Err(PlanFault::CannotRun(class, engine)),
            None => Err(PlanFault::UnknownEngine(class, Some(Text::of(alloc, name.as_bytes())?))),
        },
        None => Err(PlanFault::UnknownEngine(class, None)),
    }
}
