//! The names that declarations have.
ghost use Rattle.std.specs.Prelude.{◌≡◌};
ghost use Rattle.net_text.specs.SecondDeclarations.{named_in};
ghost use Rattle.net_text.specs.CommaLists.{named_view};
ghost use Rattle.net_text.specs.DeclarationViews.{declaration_view};
ghost use Rattle.net_modules.specs.Sayings.{says_port};

use net_text::{DeclarationAt, NameAt};

/// The name that is declared, with its line.
pub fn name_in<'a>(declaration: &DeclarationAt<'a>) -> NameAt<'a>
    ensures { named_view result ≡ named_in (declaration_view declaration.now) }
{
    match declaration {
        DeclarationAt::HeaderPort { name, .. } => *name,
        DeclarationAt::PortDirection { name, .. } => *name,
        DeclarationAt::WireName { name, .. } => *name,
        DeclarationAt::InstanceName { name } => *name,
    }
}

/// Whether a declaration says something of a port.
pub fn says_port(declaration: &DeclarationAt<'_>) -> bool
    ensures { result ≡ says_port (declaration_view declaration.now) }
{
    match declaration {
        DeclarationAt::HeaderPort { .. } => true,
        DeclarationAt::PortDirection { .. } => true,
        DeclarationAt::WireName { .. } => false,
        DeclarationAt::InstanceName { .. } => false,
    }
}
