//! The commands that are read, by their names.
ghost use Rattle.std.specs.Prelude.{◌≡◌, false, find, MatchOption};
ghost use Rattle.list_defs.specs.Members.{same_name};
ghost use Rattle.script_defs.specs.Statements.{is_command};
ghost use Rattle.upf_statements.specs.CommandNames.{command_text};
ghost use Rattle.upf_statements.specs.declared.command_names.CommandName.{CommandName as AnyCommand};

use crate::statements::Statement;

/// The commands that are read and not passed over.
#[derive(Clone, Copy, PartialEq, Eq)]
pub enum CommandName {
    CreateSupplyPort,
    CreateSupplyNet,
    ConnectSupplyNet,
    CreatePowerSwitch,
    CreateSupplySet,
    AssociateSupplySet,
    ConnectSupplySet,
    AddPortState,
    AddSupplyState,
    CreatePst,
    AddPstState,
    CreatePowerStateGroup,
    AddPowerState,
    CreatePowerDomain,
    SetIsolation,
    SetLevelShifter,
    SetDesignAttributes,
    SetPortAttributes,
    LoadUpf,
    SetScope,
    BeginPowerModel,
    EndPowerModel,
    ApplyPowerModel,
}

/// All of them.
static COMMANDS: [CommandName; 23] = [
    CommandName::CreateSupplyPort,
    CommandName::CreateSupplyNet,
    CommandName::ConnectSupplyNet,
    CommandName::CreatePowerSwitch,
    CommandName::CreateSupplySet,
    CommandName::AssociateSupplySet,
    CommandName::ConnectSupplySet,
    CommandName::AddPortState,
    CommandName::AddSupplyState,
    CommandName::CreatePst,
    CommandName::AddPstState,
    CommandName::CreatePowerStateGroup,
    CommandName::AddPowerState,
    CommandName::CreatePowerDomain,
    CommandName::SetIsolation,
    CommandName::SetLevelShifter,
    CommandName::SetDesignAttributes,
    CommandName::SetPortAttributes,
    CommandName::LoadUpf,
    CommandName::SetScope,
    CommandName::BeginPowerModel,
    CommandName::EndPowerModel,
    CommandName::ApplyPowerModel,
];

impl CommandName {
    /// How a script writes the command.
    pub fn text(self) -> &'static [u8]
        ensures { result.now ≡ command_text self }
    {
        match self {
            CommandName::CreateSupplyPort => b"create_supply_port",
            CommandName::CreateSupplyNet => b"create_supply_net",
            CommandName::ConnectSupplyNet => b"connect_supply_net",
            CommandName::CreatePowerSwitch => b"create_power_switch",
            CommandName::CreateSupplySet => b"create_supply_set",
            CommandName::AssociateSupplySet => b"associate_supply_set",
            CommandName::ConnectSupplySet => b"connect_supply_set",
            CommandName::AddPortState => b"add_port_state",
            CommandName::AddSupplyState => b"add_supply_state",
            CommandName::CreatePst => b"create_pst",
            CommandName::AddPstState => b"add_pst_state",
            CommandName::CreatePowerStateGroup => b"create_power_state_group",
            CommandName::AddPowerState => b"add_power_state",
            CommandName::CreatePowerDomain => b"create_power_domain",
            CommandName::SetIsolation => b"set_isolation",
            CommandName::SetLevelShifter => b"set_level_shifter",
            CommandName::SetDesignAttributes => b"set_design_attributes",
            CommandName::SetPortAttributes => b"set_port_attributes",
            CommandName::LoadUpf => b"load_upf",
            CommandName::SetScope => b"set_scope",
            CommandName::BeginPowerModel => b"begin_power_model",
            CommandName::EndPowerModel => b"end_power_model",
            CommandName::ApplyPowerModel => b"apply_power_model",
        }
    }
}

/// The command of this name among some, `None` where it is none of them.
fn command_among(name: &[u8], commands: &[CommandName]) -> Option<CommandName>
    ensures { result ≡ find (λ command. same_name (command_text command) name.now) commands.now }
{
    for command in commands {
        if command.text() == name {
            return Some(*command);
        }
    }
    None
}

impl Statement {
    /// The statement's command; `None` where it is passed over.
    pub fn command(&self) -> Option<CommandName>
        ensures { MatchOption result ((command : AnyCommand) → is_command (command_text command) self.now ≡ false) (λ command. self.now.name ≡ command_text command) }
    {
        command_among(self.name.as_slice(), &COMMANDS)
    }
}
