//! What declarations say of one name.
ghost use Rattle.std.specs.Prelude.{◌≡◌, Some};
ghost use Rattle.std.specs.Option.{option_map};
ghost use Rattle.net_text.specs.DeclarationViews.{declaration_view};
ghost use Rattle.net_text.specs.ParserViews.{shape_view};
ghost use Rattle.net_modules.specs.Sayings.{first_of, nothing_said, said_with};
ghost use Rattle.net_modules.specs.SaidTables.{said_view};

use net_text::{DeclarationAt, ShapeOf};

/// What the declarations of a name say of it: whether there is one, whether it is a port of the header or an instance,
/// the first direction and range of the port, and the range of the first wire.
#[derive(Clone, Copy)]
pub struct Said {
    pub named: bool,
    pub port: bool,
    pub inst: bool,
    pub shape: Option<ShapeOf>,
    pub wire: Option<Option<(u32, u32)>>,
}

/// What is said of a name that isn't declared.
pub fn nothing() -> Said
    ensures { said_view result ≡ nothing_said }
{
    Said {
        named: false,
        port: false,
        inst: false,
        shape: None,
        wire: None,
    }
}

/// The first of two directions that is there.
fn first_shape(first: Option<ShapeOf>, second: Option<ShapeOf>) -> Option<ShapeOf>
    ensures { option_map shape_view result ≡ first_of (option_map shape_view first) (option_map shape_view second) }
{
    match first {
        None => second,
        Some(shape) => Some(shape),
    }
}

/// The first of two ranges of wires that is there.
fn first_wire(
    first: Option<Option<(u32, u32)>>,
    second: Option<(u32, u32)>,
) -> Option<Option<(u32, u32)>>
    ensures { result ≡ first_of first (Some second) }
{
    match first {
        None => Some(second),
        Some(range) => Some(range),
    }
}

/// What is said of a name with one more declaration of it.
pub fn said_with(said: Said, declaration: &DeclarationAt<'_>) -> Said
    ensures { said_view result ≡ said_with (said_view said) (declaration_view declaration.now) }
{
    let mut said = said;
    said.named = true;
    match declaration {
        DeclarationAt::HeaderPort { shape, .. } => {
            said.port = true;
            said.shape = first_shape(said.shape, *shape);
        }
        DeclarationAt::PortDirection { shape, .. } => {
            said.shape = first_shape(said.shape, Some(*shape));
        }
        DeclarationAt::WireName { range, .. } => said.wire = first_wire(said.wire, *range),
        DeclarationAt::InstanceName { .. } => said.inst = true,
    }
    said
}
