ghost use Rattle.std.specs.Prelude.{◌≡◌, ◌≢◌, None, Some, Ok, Err, IfOk, IfErr, IfSome, true, pos, codes, option_map};
ghost use Rattle.toml.specs.View.{table_view};
ghost use Rattle.flex_base.specs.Classes.{can_run};
ghost use Rattle.transplant_plan.specs.PlanFile.{plan_of, first_fault, top_fault, engine_fault, assignment, string_at, integer_at, table_at, count_or, engine_by};
ghost use Rattle.transplant_plan.specs.Planning.{engine_at, AllCanRun};
ghost use Rattle.flex_base.specs.declared.class.Class.{Class};
ghost use Rattle.transplant_plan.specs.Assignment.{is_allowed, default_plan};
ghost use Rattle.transplant_plan.specs.Shown.{shown};

use crate::checks::{check_document, count_among};
use crate::fault::PlanFault;
use crate::names::{CLASSES, class_name, engine_named};
use crate::plan::{
    BANK_COUNTS, DEFAULT_BANKS, DEFAULT_KERNELS, DEFAULT_PIPES, KERNEL_COUNTS, PIPE_COUNTS, Plan,
};
use flex_base::{Class, Engine};
use std::alloc::Global;
use toml::Table;

/// The plan of a file with these bytes, or its first fault. The error may also be want of memory; it
/// is never `TooLong`.
pub fn read_plan(alloc: Global, bytes: &[u8]) -> Result<Plan, PlanFault>
    ensures ok { IfOk result (λ plan. plan_of bytes.now ≡ Ok (shown plan)) }
    ensures fault { IfErr result (λ f. f ≢ PlanFault.OutOfMemory → plan_of bytes.now ≡ Err f) }
{
    let text = match std::str::from_utf8(bytes) {
        Ok(text) => text,
        Err(_) => return Err(PlanFault::NotUtf8),
    };
    let document = match toml::table_from_str(alloc, text) {
        Ok(document) => document,
        Err(e) if e.is_memory() => return Err(PlanFault::OutOfMemory),
        Err(_) => return Err(PlanFault::NotToml),
    };
    match check_document(alloc, &document) {
        Ok(()) => Ok(plan_from(&document)),
        Err(fault) => Err(fault),
    }
}

// The plan of a document that has no fault.
fn plan_from(document: &Table) -> Plan
    requires { first_fault top_fault (table_view document.now) ≡ None }
    ensures { shown result ≡ assignment (table_view document.now) }
{
    Plan {
        engines: engines_in(document),
        banks: count_in(document, "banks", &BANK_COUNTS, DEFAULT_BANKS),
        pipes: count_in(document, "pipes", &PIPE_COUNTS, DEFAULT_PIPES),
        kernels: count_in(document, "kernels", &KERNEL_COUNTS, DEFAULT_KERNELS),
    }
}

// The count at a key, or the default.
fn count_in(document: &Table, key: &str, counts: &[u8], default: u8) -> u8
    requires sound { IfSome (integer_at key.now (table_view document.now)) (λ z. is_allowed counts.now z ≡ true) }
    requires default { is_allowed counts.now (pos default) ≡ true }
    ensures value { result ≡ count_or default (integer_at key.now (table_view document.now)) }
    ensures allowed { is_allowed counts.now (pos result) ≡ true }
{
    match integer_at(document, key) {
        Some(number) => count_among(counts, number).unwrap_or(default),
        None => default,
    }
}

// The engines by the order of `Class`.
fn engines_in(document: &Table) -> [Engine; 14]
    requires { first_fault top_fault (table_view document.now) ≡ None }
    ensures engines { (class : Class)
        → engine_at result class ≡ engine_by (table_at (codes "engine") (table_view document.now)) class }
    ensures capable { AllCanRun result }
{
    let mut engines = [Engine::Host; 14];
    for (i, class) in CLASSES.iter().enumerate() {
        engines[i] = engine_in(document, *class);
    }
    engines
}

// The engine of a class.
fn engine_in(document: &Table, class: Class) -> Engine
    requires { first_fault top_fault (table_view document.now) ≡ None }
    ensures value { result ≡ engine_by (table_at (codes "engine") (table_view document.now)) class }
    ensures capable { can_run class result ≡ true }
{
    match table_at(document, "engine") {
        Some(engines) => engine_among(engines, class),
        None => default_engine(class),
    }
}

// The engine of a class in the table of engines.
fn engine_among(engines: &Table, class: Class) -> Engine
    requires { first_fault engine_fault (table_view engines.now) ≡ None }
    ensures value { result ≡ engine_by (Some (table_view engines.now)) class }
    ensures capable { can_run class result ≡ true }
{
    match string_at(engines, class_name(class)) {
        Some(name) => engine_named(name).unwrap_or(default_engine(class)),
        None => default_engine(class),
    }
}

// The text at a key.
fn string_at<'a>(table: &'a Table, key: &str) -> Option<&'a str>
    ensures { option_map (λ text. text.now) result ≡ string_at key.now (table_view table.now) }
{
    match table.get(key) {
        Some(value) => value.as_str(),
        None => None,
    }
}

// The table at a key.
fn table_at<'a>(table: &'a Table, key: &str) -> Option<&'a Table>
    ensures { option_map (λ found. table_view found.now) result ≡ table_at key.now (table_view table.now) }
{
    match table.get(key) {
        Some(value) => value.as_table(),
        None => None,
    }
}

// The number at a key.
fn integer_at(table: &Table, key: &str) -> Option<i64>
    ensures { result ≡ integer_at key.now (table_view table.now) }
{
    match table.get(key) {
        Some(value) => value.as_integer(),
        None => None,
    }
}

fn default_engine(class: Class) -> Engine
    ensures value { result ≡ default_plan 0 class }
    ensures capable { can_run class result ≡ true }
{
    Plan::default_plan().engine_for(class)
}
