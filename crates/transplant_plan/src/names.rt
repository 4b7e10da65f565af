ghost use Rattle.std.specs.Prelude.{◌≡◌};
ghost use Rattle.transplant_plan.specs.Names as spec;

use flex_base::{Class, Engine};

/// All classes.
pub(crate) const CLASSES: [Class; 14] = [
    Class::Fetch,
    Class::Alu,
    Class::Muldiv,
    Class::Jump,
    Class::Load,
    Class::Store,
    Class::Atomic,
    Class::Fence,
    Class::Csr,
    Class::System,
    Class::Walk,
    Class::Trap,
    Class::Pulse,
    Class::Device,
];

/// All engines.
pub(crate) const ENGINES: [Engine; 3] = [Engine::Pipe, Engine::Kernel, Engine::Host];

// The name of a class in a plan.
pub(crate) fn class_name(class: Class) -> &'static str
    ensures { result.now ≡ spec.class_name class }
{
    match class {
        Class::Fetch => "fetch",
        Class::Alu => "alu",
        Class::Muldiv => "muldiv",
        Class::Jump => "jump",
        Class::Load => "load",
        Class::Store => "store",
        Class::Atomic => "atomic",
        Class::Fence => "fence",
        Class::Csr => "csr",
        Class::System => "system",
        Class::Walk => "walk",
        Class::Trap => "trap",
        Class::Pulse => "pulse",
        Class::Device => "device",
    }
}

// The class of this name.
pub(crate) fn class_named(name: &str) -> Option<Class>
    ensures { result ≡ spec.class_named name.now }
{
    CLASSES
        .iter()
        .copied()
        .find(|class| class_name(*class) == name)
}

// The name of an engine in a plan.
pub(crate) fn engine_name(engine: Engine) -> &'static str
    ensures { result.now ≡ spec.engine_name engine }
{
    match engine {
        Engine::Pipe => "pipe",
        Engine::Kernel => "kernel",
        Engine::Host => "host",
    }
}

// The engine of this name.
pub(crate) fn engine_named(name: &str) -> Option<Engine>
    ensures { result ≡ spec.engine_named name.now }
{
    ENGINES
        .iter()
        .copied()
        .find(|engine| engine_name(*engine) == name)
}
