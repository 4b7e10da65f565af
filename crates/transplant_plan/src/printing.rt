ghost use Rattle.std.specs.Prelude.{◌≡◌, IfOk, Ok, OnOk, fold};
ghost use Rattle.toml.specs.View.{view, table_view};
ghost use Rattle.transplant_plan.specs.Document.{document_of, engines_of, with_engine, with_member};
ghost use Rattle.transplant_plan.specs.PlanFile.{plan_of};
ghost use Rattle.transplant_plan.specs.Shown.{shown};

use crate::names::{CLASSES, class_name, engine_name};
use crate::plan::Plan;
use flex_base::Class;
use std::alloc::{AllocError, Global};
use toml::{Table, Value};

/// The text of a plan, with all of its keys: a file with this text has this plan. The error is want of
/// memory.
pub fn plan_text(alloc: Global, plan: &Plan) -> Result<Vec<u8>, AllocError>
    ensures { IfOk result (λ text. plan_of text.items ≡ Ok (shown plan.now)) }
{
    let document = document_of(alloc, plan)?;
    match toml::table_to_string(alloc, &document) {
        Ok(text) => Ok(text.into_bytes()),
        Err(_) => Err(AllocError),
    }
}

// The table of all keys.
fn document_of(alloc: Global, plan: &Plan) -> Result<Table, AllocError>
    ensures { IfOk result (λ t. table_view t ≡ document_of (shown plan.now)) }
{
    let engines = engines_of(alloc, plan)?;
    let mut document = Table::new(alloc);
    put(alloc, &mut document, "engine", Value::Table(engines))?;
    put(alloc, &mut document, "banks", Value::from(plan.banks()))?;
    put(alloc, &mut document, "kernels", Value::from(plan.kernels()))?;
    put(alloc, &mut document, "pipes", Value::from(plan.pipes()))?;
    put(alloc, &mut document, "version", Value::from(1u8))?;
    Ok(document)
}

// The table of engines.
#[tactic(auto, unfolding(crate::specs::Document::engines_of))]
fn engines_of(alloc: Global, plan: &Plan) -> Result<Table, AllocError>
    ensures { IfOk result (λ t. table_view t ≡ engines_of ((shown plan.now).engines 0)) }
{
    let mut engines = Table::new(alloc);
    put_engines(alloc, &mut engines, plan, &CLASSES)?;
    Ok(engines)
}

// Puts the engine of each of these classes.
fn put_engines(
    alloc: Global,
    engines: &mut Table,
    plan: &Plan,
    of: &[Class],
) -> Result<(), AllocError>
    ensures { OnOk result (table_view engines.new
        ≡ fold (with_engine ((shown plan.now).engines 0)) (table_view engines.old) of.now) }
{
    for class in of {
        let name = Value::string(alloc, engine_name(plan.engine_for(*class)))?;
        put(alloc, engines, class_name(*class), name)?;
    }
    Ok(())
}

// Puts a value at a key.
fn put(alloc: Global, table: &mut Table, key: &str, value: Value) -> Result<(), AllocError>
    ensures { OnOk result (table_view table.new ≡ with_member key.now (view value) (table_view table.old)) }
{
    match table.insert(String::from_str(alloc, key)?, value) {
        Ok(_) => Ok(()),
        Err(_) => Err(AllocError),
    }
}
