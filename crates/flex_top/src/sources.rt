ghost use Rattle.std.specs.Prelude.{◌≡◌, ◌<◌, ℕ, List, Some, true, option_map, IfOk, IfErr, IsErrOf};
ghost use Rattle.flex_base.specs.Loaded.{Loaded, image_fits};
ghost use Rattle.flex_base.specs.Outside.{OnlyReads};
ghost use Rattle.transplant_plan.specs.Assignment.{Assignment};
ghost use Rattle.transplant_plan.specs.Shown.{shown};
ghost use Rattle.flex_top.specs.Answer.{plan_from, plan_by, image_from, input_from};
ghost use Rattle.flex_top.specs.Taking.{Gives, IsRefused, IsPlanRefused, GivesImage, AreGiven, AreRefused, IsRefusal, answer_to, answer_to_plan};
ghost use Rattle.flex_top.specs.Words.{reading_of_command, IsLimited};

use crate::image::image_of;
use crate::status::Status;
use crate::words::Command;
use flex_base::{Image, Outer, TakeFault};
use image_loader::ImageFault;
use std::alloc::Global;
use transplant_plan::{Plan, PlanFault, read_plan};

// A plan's file has at most 64 KiB.
const PLAN_LIMIT: u64 = 65_536;

// An image file has at most 256 MiB.
const IMAGE_LIMIT: u64 = 268_435_456;

// The console's input has at most 1 MiB.
const INPUT_LIMIT: u64 = 1_048_576;

/// What the files of a command are.
#[derive(Drop)]
pub(crate) struct Inputs {
    pub(crate) plan: Plan,
    pub(crate) image: Image,
    // The console's input.
    pub(crate) input: Vec<u8>,
}

// Takes the files that a command names: the plan's, then the image's, then the input's. The error is
// the first refusal.
pub(crate) fn take_inputs<O: Outer>(
    alloc: Global,
    command: &Command,
    outer: &mut O,
) -> Result<Inputs, Status>
    requires { IsLimited command.now }
    ensures given { IfOk result (AreGiven (reading_of_command command.now) (O.outside outer.old).held) }
    ensures fits { IfOk result (λ inputs. image_fits command.now.settings.ram inputs.image ≡ true) }
    ensures refused { IfErr result (AreRefused (reading_of_command command.now) (O.outside outer.old).held) }
    ensures refusal { IfErr result IsRefusal }
    ensures frame { OnlyReads (O.outside outer.old) (O.outside outer.new) (IsErrOf result Status.ReadFault) }
{
    let plan = match take_plan(alloc, command.plan, outer) {
        Ok(plan) => plan,
        Err(refusal) => return Err(refusal),
    };
    let image = match take_image(alloc, command.image, command.settings.ram, outer) {
        Ok(image) => image,
        Err(refusal) => return Err(refusal),
    };
    let input = match take_input(alloc, command.input, outer) {
        Ok(input) => input,
        Err(refusal) => return Err(refusal),
    };
    Ok(Inputs { plan, image, input })
}

// Takes the file of this name, and reads the plan that it says; the plan is the default one where
// there is no name.
fn take_plan<O: Outer>(alloc: Global, name: Option<&str>, outer: &mut O) -> Result<Plan, Status>
    ensures gives { IfOk result (λ plan. Gives Assignment (O.outside outer.old).held
        (option_map (λ text. text.now) name.entry) (plan_by (option_map (λ text. text.now) name.entry)) (shown plan)) }
    ensures refused { IfErr result (λ why.
        IsPlanRefused (O.outside outer.old).held (option_map (λ text. text.now) name.entry) why) }
    ensures refusal { IfErr result IsRefusal }
    ensures frame { OnlyReads (O.outside outer.old) (O.outside outer.new) (IsErrOf result Status.ReadFault) }
{
    match name {
        Some(name) => plan_in(alloc, name, outer),
        None => Ok(Plan::default_plan()),
    }
}

// Takes the file of this name, and reads the plan that it says.
fn plan_in<O: Outer>(alloc: Global, name: &str, outer: &mut O) -> Result<Plan, Status>
    ensures gives { IfOk result (λ plan.
        Gives Assignment (O.outside outer.old).held (Some name.now) plan_from (shown plan)) }
    ensures refused { IfErr result (λ why.
        IsRefused Assignment (O.outside outer.old).held (Some name.now) plan_from why) }
    ensures refusal { IfErr result IsRefusal }
    ensures frame { OnlyReads (O.outside outer.old) (O.outside outer.new) (IsErrOf result Status.ReadFault) }
{
    let file = match outer.take(name, PLAN_LIMIT) {
        Ok(file) => file,
        Err(TakeFault::Failed) => return Err(Status::ReadFault),
        Err(TakeFault::TooLong(n)) => return Err(Status::PlanRefused(PlanFault::TooLong(n))),
        Err(TakeFault::OutOfMemory) => return Err(Status::OutOfMemory),
    };
    match read_plan(alloc, &file) {
        Ok(plan) => Ok(plan),
        Err(fault) => Err(answer_to_plan(fault)),
    }
}

// The answer to a file that is no plan: want of memory is no refusal of the plan.
#[tactic(auto, using(crate::proofs::Plans::answer_other))]
fn answer_to_plan(fault: PlanFault) -> Status
    ensures { result ≡ answer_to_plan fault }
{
    match fault {
        PlanFault::OutOfMemory => Status::OutOfMemory,
        fault => Status::PlanRefused(fault),
    }
}

// Takes the file of this name, and loads the image that it is in so many bytes of RAM.
fn take_image<O: Outer>(alloc: Global, name: &str, ram: u64, outer: &mut O) -> Result<Image, Status>
    requires { 0 < ram }
    ensures gives { IfOk result (λ image. GivesImage (O.outside outer.old).held name.now ram image) }
    ensures fits { IfOk result (λ image. image_fits ram image ≡ true) }
    ensures refused { IfErr result (λ why.
        IsRefused Loaded (O.outside outer.old).held (Some name.now) (λ file. image_from file ram) why) }
    ensures refusal { IfErr result IsRefusal }
    ensures frame { OnlyReads (O.outside outer.old) (O.outside outer.new) (IsErrOf result Status.ReadFault) }
{
    let file = match outer.take(name, IMAGE_LIMIT) {
        Ok(file) => file,
        Err(TakeFault::Failed) => return Err(Status::ReadFault),
        Err(TakeFault::TooLong(n)) => return Err(Status::ImageRefused(ImageFault::TooLong(n))),
        Err(TakeFault::OutOfMemory) => return Err(Status::OutOfMemory),
    };
    match image_of(alloc, file, ram) {
        Ok(image) => Ok(image),
        Err(fault) => Err(answer_to(fault)),
    }
}

// The answer to a file that isn't loaded: want of memory is no refusal of the image.
#[tactic(auto, using(crate::proofs::Taking::answer_other))]
fn answer_to(fault: ImageFault) -> Status
    ensures { result ≡ answer_to fault }
{
    match fault {
        ImageFault::OutOfMemory => Status::OutOfMemory,
        fault => Status::ImageRefused(fault),
    }
}

// Takes the file of this name as the console's input, which is empty where there is no name.
fn take_input<O: Outer>(alloc: Global, name: Option<&str>, outer: &mut O) -> Result<Vec<u8>, Status>
    ensures gives { IfOk result (λ input.
        Gives (List ℕ) (O.outside outer.old).held (option_map (λ text. text.now) name.entry) input_from input.items) }
    ensures refused { IfErr result (λ why.
        IsRefused (List ℕ) (O.outside outer.old).held (option_map (λ text. text.now) name.entry) input_from why) }
    ensures refusal { IfErr result IsRefusal }
    ensures frame { OnlyReads (O.outside outer.old) (O.outside outer.new) (IsErrOf result Status.ReadFault) }
{
    let Some(name) = name else {
        return Ok(Vec::new(alloc));
    };
    match outer.take(name, INPUT_LIMIT) {
        Ok(input) => Ok(input),
        Err(TakeFault::Failed) => Err(Status::ReadFault),
        Err(TakeFault::TooLong(n)) => Err(Status::InputTooLong(n)),
        Err(TakeFault::OutOfMemory) => Err(Status::OutOfMemory),
    }
}
