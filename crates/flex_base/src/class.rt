ghost use Rattle.std.specs.Prelude.{◌≡◌};
ghost use Rattle.flex_base.specs.Classes.{can_run, is_common};

use crate::engine::Engine;

/// A class of work. A plan names an engine for each.
#[derive(Clone, Copy, Debug, PartialEq, Eq)]
pub enum Class {
    Fetch,
    Alu,
    Muldiv,
    Jump,
    Load,
    Store,
    Atomic,
    Fence,
    Csr,
    System,
    Walk,
    Trap,
    Pulse,
    Device,
}

/// Whether this engine can run work of this class.
pub fn capable(class: Class, engine: Engine) -> bool
    ensures { result ≡ can_run class engine }
{
    match engine {
        Engine::Pipe => is_common(class),
        Engine::Kernel => !matches!(class, Class::Device),
        Engine::Host => true,
    }
}

fn is_common(class: Class) -> bool
    ensures { result ≡ is_common class }
{
    matches!(
        class,
        Class::Fetch
            | Class::Alu
            | Class::Muldiv
            | Class::Jump
            | Class::Load
            | Class::Store
            | Class::Atomic
            | Class::Fence
    )
}
